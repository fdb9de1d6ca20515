//! A lent buffer that is written from the front on: numbers of fixed length, varints and packed rows.
ghost use Rattle.std.specs.Prelude.{◌≡◌, ◌≤◌, length};
ghost use Rattle.page_format.specs.Bits.{varint};

use crate::bits::{num_required_bits, trailing_bits};

#[derive(Drop)]
pub struct BitWriter<'a> {
    bytes: &'a mut [u8],
    // where the next byte goes
    at: usize,
    ghost within: { at ≤ length bytes.now },
}

// The number of bytes of the varint of `number`: one for each seven bits, and one for 0.
fn varint_len(number: u64) -> usize
    ensures { result ≡ length (varint number) }
{
    usize::from(num_required_bits(number)).max(1).div_ceil(7)
}

impl<'a> BitWriter<'a> {
    ghost use Rattle.std.specs.Prelude.{◌≡◌, ℕ, [], ◌∷◌, ◌+◌, ◌-◌, ◌*◌, ◌<◌, ◌≤◌, length};
    ghost use Rattle.page_format.specs.Bits.{le_bytes, varint, packed_bytes, low_bits, bytes_for};
    ghost use Rattle.page_format.specs.Writes.{HasRoom, Appends, AppendsIf, Rewrites, Moves};
    ghost use Rattle.page_format.specs.Laws.{LeReadsBack, VarintReadsBack, VarintLength, PackedReadsBack, PackedLength};

    /// At the front of a buffer.
    pub fn new(bytes: &'a mut [u8]) -> BitWriter<'a>
        ensures same_buffer { result.bytes.ghost_name ≡ bytes.entry.ghost_name }
        ensures bytes { result.bytes.now ≡ bytes.old }
        ensures front { result.at ≡ 0 }
    {
        BitWriter { bytes, at: 0 }
    }

    /// The place where the next byte goes.
    pub fn position(&self) -> usize
        ensures { result ≡ self.now.at }
    {
        self.at
    }

    /// Goes to a place of the buffer, or to its end; no further.
    pub fn move_to(&mut self, at: usize) -> Option<()>
        ensures { Moves at self.old result self.new }
    {
        if at > self.bytes.len() {
            return None;
        }
        self.at = at;
        Some(())
    }

    /// Sets a byte before the writer's place.
    pub fn rewrite(&mut self, place: usize, byte: u8) -> Option<()>
        ensures { Rewrites place byte self.old result self.new }
    {
        if place >= self.at {
            return None;
        }
        self.bytes[place] = byte;
        Some(())
    }

    // How many bytes more have room.
    fn room(&self) -> usize
        ensures { result ≡ length self.now.bytes.now - self.now.at }
    {
        self.bytes.len() - self.at
    }

    fn put_byte(&mut self, byte: u8)
        requires { HasRoom 1 self.old }
        ensures { Appends (byte ∷ []) self.old self.new }
    {
        self.bytes[self.at] = byte;
        self.at += 1;
    }

    fn put_bytes(&mut self, bytes: &[u8])
        requires { HasRoom (length bytes.now) self.old }
        ensures { Appends bytes.now self.old self.new }
    {
        let end = self.at + bytes.len();
        let out = &mut *self.bytes;
        out[self.at..end].copy_from_slice(bytes);
        self.at = end;
    }

    // Writes the `n` low bytes of `number`.
    fn put_le(&mut self, n: usize, number: u64)
        requires few { n ≤ 8 }
        requires room { HasRoom n self.old }
        ensures { Appends (le_bytes n number) self.old self.new }
    {
        self.put_bytes(&number.to_le_bytes()[..n]);
    }

    // Writes `number` by sevens of bits.
    fn put_varint(&mut self, number: u64)
        requires { HasRoom (length (varint number)) self.old }
        ensures { Appends (varint number) self.old self.new }
    {
        let mut left = number;
        while left >= 128 {
            self.put_byte((left % 128 + 128) as u8);
            left /= 128;
        }
        self.put_byte(left as u8);
    }

    // Writes a row, eight bytes at a time.
    fn put_packed(&mut self, width: usize, values: &[u64])
        requires narrow { width ≤ 64 }
        requires room { HasRoom (bytes_for (length values.now * width)) self.old }
        ensures { Appends (packed_bytes width (low_bits width values.now)) self.old self.new }
    {
        let mut held: u128 = 0;
        let mut bits: usize = 0;
        for value in values {
            held |= u128::from(trailing_bits(*value, width)) << bits;
            bits += width;
            if bits >= 64 {
                self.put_le(8, (held % (1 << 64)) as u64);
                held >>= 64;
                bits -= 64;
            }
        }
        self.put_le(bits.div_ceil(8), held as u64);
    }

    /// Writes bytes as they are. Nothing is written where the buffer ends before.
    pub fn write_bytes(&mut self, bytes: &[u8]) -> Option<()>
        ensures { AppendsIf (Unit {0}) bytes.now self.old result self.new }
    {
        if bytes.len() > self.room() {
            return None;
        }
        self.put_bytes(bytes);
        Some(())
    }

    /// Writes the `n` low bytes of `number`, the lowest first.
    /// Nothing is written for more than eight bytes, or where the buffer ends before.
    pub fn write_le(&mut self, n: usize, number: u64) -> Option<()>
        ensures written { AppendsIf (n ≤ 8) (le_bytes n number) self.old result self.new }
        ensures reads_back { LeReadsBack }
    {
        if n > 8 || n > self.room() {
            return None;
        }
        self.put_le(n, number);
        Some(())
    }

    /// Writes the varint of `number`. Nothing is written where the buffer ends before.
    pub fn write_varint(&mut self, number: u64) -> Option<()>
        ensures written { AppendsIf (Unit {0}) (varint number) self.old result self.new }
        ensures reads_back { VarintReadsBack }
        ensures short { VarintLength }
    {
        if varint_len(number) > self.room() {
            return None;
        }
        self.put_varint(number);
        Some(())
    }

    /// Writes the `width` low bits of each value, one after another from the least significant bit on, the last byte filled with 0.
    /// Nothing is written for a width above 64, or where the buffer ends before.
    pub fn pack(&mut self, width: usize, values: &[u64]) -> Option<()>
        ensures written { AppendsIf (width ≤ 64) (packed_bytes width (low_bits width values.now)) self.old result self.new }
        ensures reads_back { PackedReadsBack }
        ensures long { PackedLength }
    {
        if width > 64 {
            return None;
        }
        let len = (values.len() as u128 * width as u128).div_ceil(8);
        if len > self.room() as u128 {
            return None;
        }
        self.put_packed(width, values);
        Some(())
    }
}
