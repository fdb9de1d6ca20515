//! The fields of a page as they are read: numbers of fixed length, varints and packed rows.
ghost use Rattle.std.specs.Prelude.{◌≡◌, ◌-◌, ◌≤◌, ◌++◌, length, replicate};
ghost use Rattle.page_format.specs.Bits.{le_number, read_le, read_varint, read_packed};

use crate::field::{BadField, Field};

// The bytes of the longest varint below 2^32.
const MAX_VARINT_BYTES: usize = 5;

// The number that bytes are, the lowest first.
fn le_value(bytes: &[u8]) -> u128
    requires { length bytes.now ≤ 16 }
    ensures { result ≡ le_number bytes.now }
{
    let mut value: u128 = 0;
    for byte in bytes.iter().rev() {
        value = (value << 8) | u128::from(*byte);
    }
    value
}

/// The number that the first `n` bytes are, the lowest first.
pub fn read_le(bytes: &[u8], n: usize) -> Result<u64, BadField>
    ensures { result ≡ read_le n bytes.now }
{
    if n > 8 {
        return Err(BadField::TooLong);
    }
    if bytes.len() < n {
        return Err(BadField::Cut);
    }
    Ok(le_value(&bytes[0..n]) as u64)
}

/// The varint at the front of `bytes`, of at most five bytes and below 2^32.
pub fn read_varint(bytes: &[u8]) -> Result<Field, BadField>
    ensures { result ≡ read_varint 32 bytes.now }
{
    let mut value: u64 = 0;
    for i in 0..MAX_VARINT_BYTES {
        let Some(byte) = bytes.get(i) else {
            return Err(BadField::Cut);
        };
        value += u64::from(byte % 128) << (7 * i);
        if *byte < 128 {
            return if value < 1 << 32 {
                Ok(Field { value, len: i + 1 })
            } else {
                Err(BadField::TooLarge)
            };
        }
    }
    Err(BadField::TooLong)
}

/// The value at place `index` of a row packed at `width` bits.
pub fn read_packed(bytes: &[u8], width: usize, index: usize) -> Result<u64, BadField>
    ensures { result ≡ read_packed width bytes.now index }
{
    if width > 64 {
        return Err(BadField::TooLong);
    }
    let first = index as u128 * width as u128;
    let last = (first + width as u128).div_ceil(8);
    if last > bytes.len() as u128 {
        return Err(BadField::Cut);
    }
    let start = (first / 8) as usize;
    let end = last as usize;
    let shift = (first % 8) as usize;
    let held = le_value(&bytes[start..end]) >> shift;
    Ok((held % (1 << width)) as u64)
}
