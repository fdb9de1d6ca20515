//! A key page that was opened.
ghost use Rattle.std.specs.Prelude.{List};
ghost use Rattle.key_pages.specs.Accepting.{Accepted};
ghost use Rattle.key_pages.specs.Meaning.{ReadRun};

use crate::keys::Keys;
use crate::runs::Runs;
use crate::width::KeyWidth;
use page_format::{Fault, Layer, MAX_ENTRIES, MAX_PAGE_VALUES, Rejection};

#[derive(Clone, Copy)]
pub struct KeyPage<'a> {
    page: &'a [u8],
    width: KeyWidth,
    count: usize,
    entries: usize,
    ghost accepted: { ∥ ((runs : List ReadRun) × Accepted page.now count entries width.bits runs) ∥₁ },
}

impl<'a> KeyPage<'a> {
    ghost use Rattle.std.specs.Prelude.{◌≡◌, ℕ, ◌<◌, ◌≤◌, List, length, true, is_ok, IfOk, IfErr};
    ghost use Rattle.page_format.specs.Faults.{Rejected};
    ghost use Rattle.page_format.specs.Limits.{most_entries};
    ghost use Rattle.key_pages.specs.Accepting.{Accepted};
    ghost use Rattle.key_pages.specs.Coming.{runs_to_come, keys_to_come};
    ghost use Rattle.key_pages.specs.Listing.{Listed};
    ghost use Rattle.key_pages.specs.Meaning.{ReadRun, Means, keys_of};
    ghost use Rattle.key_pages.specs.Opening.{Refused, Opened, ByMeaning, Decided};

    /// Takes a page as one of so many keys to so many entries, or says why it is none.
    pub fn open(page: &'a [u8], count: usize, entries: usize) -> Result<KeyPage<'a>, Fault>
        ensures accepted { IfOk result (λ p. Opened page.now count entries p) }
        ensures complete { (w : ℕ) (runs : List ReadRun) → Accepted page.now count entries w runs → is_ok result ≡ true }
        ensures rejected { IfErr result (λ f. Refused page.now count entries f) }
        ensures decided { Decided page.now count }
    {
        if count > MAX_PAGE_VALUES || entries > MAX_ENTRIES {
            return Err(Fault::new(Rejection::AboveLimit, Layer::Reader, 0));
        }
        let malformed = |place| Fault::new(Rejection::MalformedPage, Layer::Reader, place);
        let runs = Runs::of_page(page, count).map_err(malformed)?;
        if let Some(number) = Keys::start(runs, count).first_outside(entries) {
            return Err(Fault::new(Rejection::KeyOutside, Layer::Reader, number));
        }
        Ok(KeyPage {
            page,
            width: runs.width,
            count,
            entries,
        })
    }

    /// The bit width of the keys.
    pub fn width(&self) -> u8
        ensures width { ByMeaning self.now (λ w runs. result ≡ w) }
    {
        u8::from(self.width)
    }

    /// The number of keys.
    pub fn count(&self) -> usize
        ensures count { result ≡ self.now.count }
    {
        self.count
    }

    /// The runs, one by one.
    #[tactic(auto, using(crate::proofs::Opens::width_meant, crate::proofs::Opens::runs_meant))]
    pub fn runs(&self) -> Runs<'a>
        ensures runs { ByMeaning self.now (λ w runs. runs_to_come result ≡ runs) }
        ensures width { ByMeaning self.now (λ w runs. result.width.bits ≡ w) }
    {
        Runs::start(self.page, self.width, self.count)
    }

    /// The keys, one by one.
    pub fn keys(&self) -> Keys<'a>
        ensures keys { ByMeaning self.now (λ w runs. keys_to_come result ≡ keys_of w self.now.count runs) }
    {
        Keys::start(self.runs(), self.count)
    }

    /// Puts each key of the page once at the front of a list of at least 4,096 places, and answers how many they are.
    #[tactic(auto, using(crate::proofs::Opens::keys_below))]
    pub fn used_keys(&self, used: &mut [u32]) -> Result<usize, Fault>
        ensures short { length used.old < most_entries → Rejected 9 5 1 result × (used.new ≡ used.old) }
        ensures fits { most_entries ≤ length used.old → is_ok result ≡ true }
        ensures listed { most_entries ≤ length used.old → (w : ℕ) (runs : List ReadRun) → Accepted self.now.page.now self.now.count self.now.entries w runs → Listed (keys_of w self.now.count runs) used.old result used.new }
    {
        if used.len() < MAX_ENTRIES {
            return Err(Fault::new(Rejection::ShortBuffer, Layer::Reader, 1));
        }
        Ok(self.keys().list_once(used))
    }
}
