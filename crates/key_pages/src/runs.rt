//! The runs of a page, one by one.
ghost use Rattle.std.specs.Prelude.{◌≡◌, ◌≤◌, length};
ghost use Rattle.std.specs.Option.{option_map};
ghost use Rattle.key_pages.specs.Reading.{width_of};

use crate::run::Run;
use crate::width::KeyWidth;
use page_format::read_varint;

// The most values of a run.
const MOST_VALUES: usize = 2_147_483_647;

#[derive(Clone, Copy)]
pub struct Runs<'a> {
    page: &'a [u8],
    pub(crate) width: KeyWidth,
    // where the next run begins
    place: usize,
    // values that are still owed
    left: usize,
    ghost within: { place ≤ length page.now },
}

// A run and its size in bytes. Where there is none, an error is the place of the first wrong field: counted from the run's header up
// to `read_run`, from the page's front in what stands on it.
struct Found<'a> {
    run: Run<'a>,
    size: usize,
}

// The width of a page, if it has one that is not too large.
fn width_of(page: &[u8]) -> Option<KeyWidth>
    ensures { option_map (λ w. w.bits) result ≡ width_of page.now }
{
    KeyWidth::new(usize::from(*page.first()?))
}

impl<'a> Runs<'a> {
    ghost use Rattle.std.specs.Prelude.{◌≡◌, ◌+◌, ◌^◌, ◌<◌, ◌≤◌, true, IfOk, IfErr, MatchResult, length, take, drop};
    ghost use Rattle.std.specs.Result.{result_err};
    ghost use Rattle.key_pages.specs.Meaning.{Means, Malformed};
    ghost use Rattle.key_pages.specs.Reading.{repeat_step, packed_step, walk};
    ghost use Rattle.key_pages.specs.Views.{view, whole};
    ghost use Rattle.key_pages.specs.Coming.{rest_of, ReadAs, Advanced, next_step, walk_from, runs_to_come};

    // The runs of a page of this width, which owe so many values.
    pub(crate) fn start(page: &'a [u8], width: KeyWidth, count: usize) -> Runs<'a>
        requires within { 1 ≤ length page.now }
        ensures walk { walk_from result ≡ walk width.bits 1 count (drop 1 page.now) }
        ensures width { result.width ≡ width }
    {
        Runs {
            page,
            width,
            place: 1,
            left: count,
        }
    }

    // The runs of a page that has so many keys, or the place of the first wrong field.
    #[tactic(auto, using(crate::proofs::Opens::page_told_by_walk))]
    pub(crate) fn of_page(page: &'a [u8], count: usize) -> Result<Runs<'a>, usize>
        ensures means { IfOk result (λ r. Means page.now count r.width.bits (runs_to_come r)) }
        ensures malformed { IfErr result (λ p. Malformed page.now count p) }
    {
        let width = width_of(page).ok_or(0usize)?;
        let runs = Runs::start(page, width, count);
        runs.check()?;
        Ok(runs)
    }

    // The bytes from here.
    fn rest(&self) -> &'a [u8]
        ensures { result.now ≡ rest_of self.now }
    {
        &self.page[self.place..]
    }

    // The `size` bytes behind a header of `start` bytes, or the place behind the header where the page ends before.
    fn body(&self, start: usize, size: usize) -> Result<&'a [u8], usize>
        requires { start ≤ length (rest_of self.now) }
        ensures { MatchResult result (λ b. (b.now ≡ take size (drop start (rest_of self.now))) × (start + size ≤ length (rest_of self.now))) (λ k. (k ≡ start) × (length (rest_of self.now) < start + size)) }
    {
        self.rest()[start..].get(..size).ok_or(start)
    }

    // The rest of a repeat, behind a header of `start` bytes; or its first wrong field.
    #[tactic(auto, unfolding(crate::specs::Reading::repeat_step))]
    fn read_repeat(&self, count: usize, start: usize) -> Result<Found<'a>, usize>
        requires within { start ≤ length (rest_of self.now) }
        ensures step { ReadAs (repeat_step self.now.width.bits self.now.place self.now.left (rest_of self.now) count start) result }
    {
        if count > self.left {
            return Err(0);
        }
        let size = self.width.bytes();
        let value = self.body(start, size)?;
        let run = Run::Repeat {
            count,
            value,
            place: self.place,
        };
        Ok(Found {
            run,
            size: start + size,
        })
    }

    // The rest of a packed run, behind a header of `start` bytes; or its first wrong field.
    #[tactic(auto, unfolding(crate::specs::Reading::packed_step))]
    fn read_groups(&self, groups: usize, start: usize) -> Result<Found<'a>, usize>
        requires within { start ≤ length (rest_of self.now) }
        requires few { groups < 2 ^ 32 }
        ensures step { ReadAs (packed_step self.now.width.bits self.now.place (rest_of self.now) groups start) result }
    {
        if 8 * groups > MOST_VALUES {
            return Err(0);
        }
        let size = groups * self.width.bits();
        let bytes = self.body(start, size)?;
        let run = Run::Packed {
            groups,
            bytes,
            place: self.place,
        };
        Ok(Found {
            run,
            size: start + size,
        })
    }

    // The next run, or the first wrong field.
    #[tactic(auto, using(crate::proofs::Advancing::bounds), unfolding(crate::specs::Reading::read_run, crate::specs::Reading::header_step))]
    fn read_run(&self) -> Result<Found<'a>, usize>
        ensures step { ReadAs (next_step self.now) result }
        ensures ok { IfOk result (λ f. (self.now.place + f.size ≤ length self.now.page.now) × (whole self.now.width.bits (view f.run) ≡ true)) }
        ensures err { IfErr result (λ at. self.now.place + at ≤ length self.now.page.now) }
    {
        let Ok(header) = read_varint(self.rest()) else {
            return Err(0);
        };
        if header.value < 2 {
            return Err(0);
        }
        let number = (header.value / 2) as usize;
        if header.value % 2 == 0 {
            self.read_repeat(number, header.len)
        } else {
            self.read_groups(number, header.len)
        }
    }

    // Takes the next run, or answers the place of the first wrong field.
    fn advance(&mut self) -> Result<Run<'a>, usize>
        ensures advanced { Advanced self.old result self.new }
    {
        let Found { run, size } = self.read_run().map_err(|at| self.place + at)?;
        self.place += size;
        self.left = self.left.saturating_sub(run.len());
        Ok(run)
    }

    // The place of the first wrong field from here, if there is one.
    #[tactic(auto, using(crate::proofs::Opens::fault_of_walk))]
    fn check(mut self) -> Result<(), usize>
        ensures fault { result_err result ≡ (walk_from self.entry).fault }
    {
        while self.left > 0 {
            self.advance()?;
        }
        if self.place < self.page.len() {
            return Err(self.place);
        }
        Ok(())
    }
}

impl<'a> Iterator for Runs<'a> {
    ghost use Rattle.std.specs.Iterator.{item_count};
    ghost use Rattle.key_pages.specs.Coming.{NextRun, runs_to_come};

    type Item = Run<'a>;

    ghost next_gives = { NextRun };

    ghost remaining = { item_count runs_to_come };

    #[tactic(auto, using(crate::proofs::Stepping::taking))]
    fn next(&mut self) -> Option<Run<'a>> {
        if self.left == 0 {
            return None;
        }
        self.advance().ok()
    }
}
