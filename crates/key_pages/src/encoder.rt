//! The run writer of a key page. A page is the byte of the keys' width, then runs. A repeat run is the varint of twice its count and
//! one key in whole bytes; a packed run is a byte, one more than twice the number of its groups, and its groups, each of eight keys
//! packed at the width.
use crate::run_bytes::{fill_up, put_group, put_repeat};
use crate::width::KeyWidth;
use page_format::{BitWriter, MAX_RUN_GROUPS};

// How often the last key came in a row.
#[derive(Drop)]
enum State {
    // below eight times since the last group was full, all of them in the group
    Gathering(usize),
    // eight times or more, and none of them is written
    Repeating(usize),
}

// A packed run that may take more groups.
#[derive(Clone, Copy)]
struct OpenRun {
    // where its first byte stands
    header: usize,
    groups: usize,
}

impl OpenRun {
    ghost use Rattle.std.specs.Prelude.{◌≡◌, ℕ, ◌+◌, ◌^◌, ◌<◌, ◌≤◌, List, [], ◌∷◌, ◌++◌, length};
    ghost use Rattle.std.specs.List.{AllByRecursion};
    ghost use Rattle.page_format.specs.Limits.{run_groups};
    ghost use Rattle.page_format.specs.Writes.{HasRoom, Appends};
    ghost use Rattle.key_pages.specs.Held.{Packs, Extends};

    // Writes the first byte of a run that has no group yet.
    #[tactic(auto, using(page_format::proofs::Writing::appends_done), unfolding(page_format::specs::Bits::le_bytes))]
    fn begin(out: &mut BitWriter<'_>) -> OpenRun
        requires { HasRoom 1 out.old }
        ensures empty { result ≡ record { header = out.old.at; groups = 0 } }
        ensures wrote { Appends (1 ∷ []) out.old out.new }
    {
        let header = out.position();
        out.write_le(1, 1).unwrap();
        OpenRun { header, groups: 0 }
    }

    // Writes a group more.
    #[tactic(auto, using(crate::proofs::Carried::packs_more, crate::proofs::Carried::sets_done, crate::proofs::Carried::extends_sets, crate::proofs::Carried::extends_both, crate::proofs::Carried::extends_appends))]
    fn add(&mut self, out: &mut BitWriter<'_>, width: KeyWidth, group: [u64; 8])
        requires few { self.old.groups < run_groups }
        requires behind { self.old.header < out.old.at }
        requires inside { AllByRecursion (λ k. k < 2 ^ width.bits) group }
        requires room { HasRoom width.bits out.old }
        ensures packs { (front : List ℕ) (gs : List (List ℕ)) → Packs width.bits front gs self.old out.old → Packs width.bits front (gs ++ group ∷ []) self.new out.new }
        ensures extends { Extends out.old out.new }
    {
        self.groups += 1;
        out.rewrite(self.header, (2 * self.groups + 1) as u8)
            .unwrap();
        put_group(out, width, group);
    }
}

/// The writer is handed to each method: of a buffer that an encoder held by a writer of its own, two structs deep, the caller's proof
/// would know nothing afterwards.
#[derive(Drop)]
pub struct RleEncoder {
    width: KeyWidth,
    open: Option<OpenRun>,
    // the keys that are in no run yet, `waiting` of them: an array with a count beside it, since there is no heap and all eight
    // are packed at once
    group: [u64; 8],
    waiting: usize,
    last: u64,
    state: State,
}

impl RleEncoder {
    ghost use Rattle.std.specs.Prelude.{◌≡◌, ◌^◌, ◌<◌, length};
    ghost use Rattle.key_pages.specs.Machine.{start, put};
    ghost use Rattle.key_pages.specs.Held.{Stands, Holds, filling, joining, packing, Full, Fills, Joins, Small, Ready, Refines, Grows, Extends, Ending, Ended, Gathered};

    // Begins a page of keys of this width.
    pub(crate) fn new(out: &mut BitWriter<'_>, width: KeyWidth) -> RleEncoder
        requires front { out.old.at ≡ 0 }
        requires room { 0 < length out.old.bytes.now }
        ensures holds { Holds start result out.new }
        ensures width { result.width ≡ width }
        ensures extends { Extends out.old out.new }
    {
        out.write_le(1, width.bits() as u64).unwrap();
        RleEncoder {
            width,
            open: None,
            group: [0; 8],
            waiting: 0,
            last: 0,
            state: State::Gathering(0),
        }
    }

    // The full group is a group more of the packed run, which is opened where there is none.
    fn pack_group(&mut self, out: &mut BitWriter<'_>)
        requires { Ready Stands packing Full self.old out.old }
        ensures refines { Refines Stands packing Full Stands self.old out.old self.new out.new }
        ensures grows { Grows self.old out.old self.new out.new }
    {
        let mut run = match self.open {
            Some(run) => run,
            None => OpenRun::begin(out),
        };
        run.add(out, self.width, self.group);
        self.open = Some(run);
        self.waiting = 0;
    }

    // A full group of equal keys begins a repeat run; another joins the packed run.
    fn fill_group(&mut self, out: &mut BitWriter<'_>, repeats: usize)
        requires { Ready Stands filling (Fills repeats) self.old out.old }
        ensures refines { Refines Stands filling (Fills repeats) Holds self.old out.old self.new out.new }
        ensures grows { Grows self.old out.old self.new out.new }
    {
        if repeats == 8 {
            self.waiting = 0;
            self.open = None;
            self.state = State::Repeating(8);
        } else {
            self.pack_group(out);
            self.open = self.open.filter(|run| run.groups < MAX_RUN_GROUPS);
            self.state = State::Gathering(0);
        }
    }

    // The last key, which came `repeats` times in a row, joins the group.
    fn join_group(&mut self, out: &mut BitWriter<'_>, repeats: usize)
        requires { Ready Stands joining (Joins repeats) self.old out.old }
        ensures refines { Refines Stands joining (Joins repeats) Holds self.old out.old self.new out.new }
        ensures grows { Grows self.old out.old self.new out.new }
    {
        self.group[self.waiting] = self.last;
        self.waiting += 1;
        if self.waiting == 8 {
            self.fill_group(out, repeats);
        } else {
            self.state = State::Gathering(repeats);
        }
    }

    // The next key.
    pub(crate) fn put(&mut self, out: &mut BitWriter<'_>, key: u64)
        requires ready { Ready Holds (λ m. put m key) Small self.old out.old }
        requires inside { key < 2 ^ self.old.width.bits }
        ensures refines { Refines Holds (λ m. put m key) Small Holds self.old out.old self.new out.new }
        ensures grows { Grows self.old out.old self.new out.new }
    {
        let repeats = match (&mut self.state, key == self.last) {
            (State::Repeating(count), true) => {
                *count += 1;
                return;
            }
            (State::Repeating(count), false) => {
                put_repeat(out, self.width, *count, self.last);
                1
            }
            (State::Gathering(repeats), true) => *repeats + 1,
            (State::Gathering(_), false) => 1,
        };
        self.last = key;
        self.join_group(out, repeats);
    }

    // The end of the page: the keys that wait are written.
    pub(crate) fn finish(self, out: &mut BitWriter<'_>)
        requires { Ending Holds Small self out.old }
        ensures ended { Ended Holds Small self out.old out.new }
    {
        match self.state {
            State::Repeating(count) => put_repeat(out, self.width, count, self.last),
            State::Gathering(repeats) => self.finish_group(out, repeats),
        }
    }

    // The same where the last key came `repeats` times in a row, below eight.
    fn finish_group(mut self, out: &mut BitWriter<'_>, repeats: usize)
        requires { Ending Stands (Gathered repeats) self out.old }
        ensures ended { Ended Stands (Gathered repeats) self out.old out.new }
    {
        if self.waiting == 0 {
            return;
        }
        if self.open.is_none() && repeats == self.waiting {
            put_repeat(out, self.width, repeats, self.last);
        } else {
            self.group = fill_up(self.group, self.waiting);
            self.waiting = 8;
            self.pack_group(out);
        }
    }
}
