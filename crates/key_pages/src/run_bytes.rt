//! The bytes of a repeat run and of a group.
ghost use Rattle.std.specs.Prelude.{◌≡◌, ◌+◌, ◌^◌, ◌<◌, ◌≤◌, length, take};
ghost use Rattle.std.specs.List.{AllByRecursion};
ghost use Rattle.page_format.specs.Bits.{packed_bytes};
ghost use Rattle.page_format.specs.Writes.{HasRoom, Appends};
ghost use Rattle.key_pages.specs.Runs.{repeat, run_bytes, filled};

use crate::width::KeyWidth;
use page_format::BitWriter;

#[tactic(auto, using(page_format::proofs::Writing::appends_some, page_format::proofs::Writing::appends_done, page_format::proofs::Writing::appends_both, page_format::proofs::Writing::appends_length), unfolding(crate::specs::Runs::run_bytes))]
pub(crate) fn put_repeat(out: &mut BitWriter<'_>, width: KeyWidth, count: usize, key: u64)
    requires few { count < 2 ^ 62 }
    requires room { HasRoom (length (run_bytes width.bits (repeat count key))) out.old }
    ensures wrote { Appends (run_bytes width.bits (repeat count key)) out.old out.new }
{
    out.write_varint(2 * count as u64).unwrap();
    out.write_le(width.bytes(), key).unwrap();
}

#[tactic(auto, using(page_format::proofs::Writing::appends_done, crate::proofs::Writes::low_same))]
pub(crate) fn put_group(out: &mut BitWriter<'_>, width: KeyWidth, group: [u64; 8])
    requires inside { AllByRecursion (λ k. k < 2 ^ width.bits) group }
    requires room { HasRoom width.bits out.old }
    ensures wrote { Appends (packed_bytes width.bits group) out.old out.new }
{
    out.pack(width.bits(), &group).unwrap();
}

// A part group filled with 0.
pub(crate) fn fill_up(group: [u64; 8], waiting: usize) -> [u64; 8]
    requires { waiting ≤ 8 }
    ensures full { result ≡ filled (take waiting group) }
{
    let mut full = group;
    full[waiting..].fill(0);
    full
}
