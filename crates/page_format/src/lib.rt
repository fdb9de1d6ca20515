//! What every layer shares: faults, limits, the encodings' numbers, and the bit-level fields of a page.
#![tactic(auto)]

mod bit_writer;
mod bits;
mod column;
mod encoding;
mod fault;
mod field;
mod fields;
mod limits;
mod width;

pub use bit_writer::BitWriter;
pub use bits::{ceil, num_required_bits, trailing_bits, unzigzag, zigzag};
pub use column::Column;
pub use encoding::{Encoding, UnknownEncoding};
pub use fault::{Fault, Layer, Rejection};
pub use field::{BadField, Field};
pub use fields::{read_le, read_packed, read_varint};
pub use limits::{
    MAX_ARRAY_VALUES, MAX_DATA_BYTES, MAX_ENTRIES, MAX_FIXED_WIDTH, MAX_KEY_WIDTH, MAX_PAGE_VALUES,
    MAX_RUN_GROUPS, MAX_VALUE_BYTES, TABLE_SLOTS, all_limits,
};
pub use width::Width;
