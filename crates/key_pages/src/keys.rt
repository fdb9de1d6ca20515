//! The keys of a page, one by one.
ghost use Rattle.std.specs.Prelude.{◌≡◌, true};
ghost use Rattle.key_pages.specs.Views.{holds_whole};

use crate::run::Run;
use crate::runs::Runs;
use page_format::MAX_ENTRIES;

#[derive(Clone, Copy)]
pub struct Keys<'a> {
    // behind the run in use
    runs: Runs<'a>,
    run: Option<Run<'a>>,
    // values of the run that have come
    at: usize,
    // keys that are still owed
    left: usize,
    ghost whole: { holds_whole runs.width.bits run ≡ true },
}

impl<'a> Keys<'a> {
    ghost use Rattle.std.specs.Prelude.{◌≡◌, ◌<◌, ◌≤◌, length};
    ghost use Rattle.std.specs.List.{AllByRecursion};
    ghost use Rattle.page_format.specs.Limits.{most_entries};
    ghost use Rattle.key_pages.specs.Coming.{InUse, Outside, runs_to_come, keys_to_come};
    ghost use Rattle.key_pages.specs.Listing.{ListsOnce};
    ghost use Rattle.key_pages.specs.Meaning.{keys_of};

    // The first `count` values of runs.
    pub(crate) fn start(runs: Runs<'a>, count: usize) -> Keys<'a>
        ensures keys { keys_to_come result ≡ keys_of runs.entry.width.bits count (runs_to_come runs.entry) }
    {
        Keys {
            runs,
            run: None,
            at: 0,
            left: count,
        }
    }

    // The run that has the next value, which is put in use.
    #[tactic(auto, using(crate::proofs::Stepping::turning))]
    fn current(&mut self) -> Option<Run<'a>>
        ensures current { InUse self.old result self.new }
    {
        if let Some(run) = self.run {
            if self.at < run.len() {
                return Some(run);
            }
        }
        self.run = self.runs.next();
        self.at = 0;
        self.run
    }

    // The number of the first key to come that is not below the entries.
    pub(crate) fn first_outside(mut self, entries: usize) -> Option<usize>
        ensures first { Outside (keys_to_come self.entry) entries result }
    {
        self.position(|key| key as usize >= entries)
    }

    // Lists the keys in order of first use, and answers how many they are. Each is below the most entries.
    #[tactic(auto, using(crate::proofs::Noting::in_range, crate::proofs::Noting::room, crate::proofs::Noting::skips))]
    pub(crate) fn list_once(self, used: &mut [u32]) -> usize
        requires room { most_entries ≤ length used.old }
        requires few { AllByRecursion (λ key. key < most_entries) (keys_to_come self) }
        ensures once { ListsOnce (keys_to_come self.entry) used.old result used.new }
    {
        // A mark for each entry, and the caller's list, since there is no heap for a set and a `Vec`.
        let mut seen = [false; MAX_ENTRIES];
        // Counted by hand: a filter that marks `seen`, zipped with the places, has no proof where the keys have a ghost field.
        let mut number = 0;
        for key in self {
            if !seen[key as usize] {
                seen[key as usize] = true;
                used[number] = key;
                number += 1;
            }
        }
        number
    }
}

impl<'a> Iterator for Keys<'a> {
    ghost use Rattle.std.specs.Iterator.{YieldsFirst, item_count};
    ghost use Rattle.key_pages.specs.Coming.{keys_to_come};

    type Item = u32;

    ghost next_gives = { YieldsFirst keys_to_come };

    ghost remaining = { item_count keys_to_come };

    fn next(&mut self) -> Option<u32> {
        if self.left == 0 {
            return None;
        }
        let run = self.current()?;
        let key = run.key(self.runs.width, self.at);
        self.at += 1;
        self.left -= 1;
        Some(key)
    }
}
