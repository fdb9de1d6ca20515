//! The calls that write key pages.
ghost use Rattle.std.specs.Prelude.{◌≡◌, ◌+◌, ◌-◌, ◌^◌, ◌<◌, ◌≤◌, length, MatchOption};
ghost use Rattle.std.specs.List.{AllByRecursion};
ghost use Rattle.page_format.specs.Bits.{BitsOf};
ghost use Rattle.page_format.specs.Limits.{page_values};
ghost use Rattle.page_format.specs.Writes.{Wrote};
ghost use Rattle.key_pages.specs.Meaning.{FirstOutside};
ghost use Rattle.key_pages.specs.Runs.{page, most_bytes};
ghost use Rattle.key_pages.specs.Back.{PageReadsBack};
ghost use Rattle.key_pages.specs.Claims.{worked, MostOf, Limited, PageWritten, Bounded, RulesCut, PageFits, WorkedPages};

use crate::encoder::RleEncoder;
use crate::width::KeyWidth;
use page_format::{BitWriter, Fault, Layer, MAX_PAGE_VALUES, Rejection, ceil, num_required_bits};

/// The least width that holds every key of so many entries.
pub fn key_width(entries: usize) -> usize
    ensures least { BitsOf (entries - 1) result }
{
    usize::from(num_required_bits(entries.saturating_sub(1) as u64))
}

// The width of the keys of a page, where it and their number are within the limits.
fn limited(width: usize, count: usize) -> Result<KeyWidth, Fault>
    ensures limited { Limited width count result }
{
    match KeyWidth::new(width) {
        Some(width) if count <= MAX_PAGE_VALUES => Ok(width),
        _ => Err(Fault::new(Rejection::AboveLimit, Layer::Writer, 0)),
    }
}

// The most bytes that the runs of `count` keys take.
fn most_bytes(width: KeyWidth, count: usize) -> usize
    requires few { count ≤ page_values }
    ensures most { result ≡ most_bytes width.bits count }
{
    ceil(count, 8) * (1 + width.bits())
}

/// The most bytes that the runs of `count` keys take, without the width's byte.
pub fn max_buffer_size(width: usize, count: usize) -> Result<usize, Fault>
    ensures most { MostOf width count result }
{
    Ok(most_bytes(limited(width, count)?, count))
}

// The number of the first key that `width` bits do not hold. `Keys::first_outside` is the same call of another iterator; a function over
// both would say no less.
fn first_outside(width: KeyWidth, keys: &[u32]) -> Option<usize>
    ensures first { MatchOption result (AllByRecursion (λ k. k < 2 ^ width.bits) keys.now) (λ i. FirstOutside keys.now (2 ^ width.bits) i) }
{
    let bound: u64 = 1 << width.bits();
    keys.iter().position(|key| u64::from(*key) >= bound)
}

// Writes the page of keys that have one, and returns its length.
fn write_runs(out: &mut [u8], width: KeyWidth, keys: &[u32]) -> usize
    requires few { length keys.now ≤ page_values }
    requires inside { AllByRecursion (λ k. k < 2 ^ width.bits) keys.now }
    requires room { 1 + most_bytes width.bits (length keys.now) ≤ length out.old }
    ensures wrote { Wrote (page width.bits keys.now) 0 out.old result out.new }
{
    let mut writer = BitWriter::new(out);
    let mut encoder = RleEncoder::new(&mut writer, width);
    for key in keys {
        encoder.put(&mut writer, u64::from(*key));
    }
    encoder.finish(&mut writer);
    writer.position()
}

/// Writes the page of the keys to the front of `out`, and returns its length. A rejected call leaves `out` as it is.
#[tactic(auto, using(crate::proofs::Ruling::rules_cut, crate::proofs::Ruling::only_cut, crate::proofs::Sizes::page_fits, crate::proofs::RoundTrip::page_reads_back))]
pub fn write_key_page(out: &mut [u8], width: usize, keys: &[u32]) -> Result<usize, Fault>
    ensures written { PageWritten width keys.now out.old result out.new }
    ensures bound { Bounded width (length keys.now) result }
    ensures cuts { RulesCut }
    ensures fits { PageFits }
    ensures reads_back { PageReadsBack }
{
    let width = limited(width, keys.len())?;
    if out.len() < 1 + most_bytes(width, keys.len()) {
        return Err(Fault::new(Rejection::ShortBuffer, Layer::Writer, 1));
    }
    if let Some(place) = first_outside(width, keys) {
        return Err(Fault::new(Rejection::KeyOutside, Layer::Writer, place));
    }
    Ok(write_runs(out, width, keys))
}

/// How many pages are worked out by hand: each is what is written for its keys.
pub fn worked_pages() -> usize
    ensures count { result ≡ length worked }
    ensures pages { WorkedPages }
{
    6
}
