//! The writers: values that print as a request's parts, and calls that append them.
ghost use Rattle.std.specs.Prelude.{◌≡◌, ◌<◌, ◌≤◌, ◌++◌, length, string_bytes, decimal, OnOk};
ghost use Rattle.std.specs.Fmt.{AppendsText};
ghost use Rattle.page_text.specs.Pages.{hex_digit, hex};
ghost use Rattle.page_text.specs.Written.{spaced, Keeps};

use std::alloc::AllocError;
use std::fmt;
use std::str::from_utf8;

// How many bytes are written at a time, and the room for their digits.
const BLOCK: usize = 32;

const ROOM: usize = 2 * BLOCK;

// How many numbers are printed at a time, so that their text is short beside the whole.
const PIECE: usize = 64;

/// Bytes that print as two upper-case hex digits each.
#[derive(Clone, Copy, PartialEq, Eq, Debug)]
pub struct Hex<'a>(pub &'a [u8]);

/// Numbers that print as a space and the decimal each.
#[derive(Clone, Copy, PartialEq, Eq, Debug)]
pub struct Spaced<'a>(pub &'a [u32]);

fn hex_digit(value: u8) -> u8
    requires { value < 16 }
    ensures { result ≡ hex_digit value }
{
    match value {
        0..=9 => b'0' + value,
        _ => b'A' + value - 10,
    }
}

// The digits of a block, which are written into `room`.
#[tactic(auto, using(crate::proofs::Hexes::hex_written), unfolding(crate::specs::Pages::hex))]
fn block_text<'a>(block: &[u8], room: &'a mut [u8; ROOM]) -> &'a str
    requires { length block.now ≤ BLOCK }
    ensures { result.now ≡ hex block.now }
{
    for (i, byte) in block.iter().enumerate() {
        room[2 * i] = hex_digit(*byte / 16);
        room[2 * i + 1] = hex_digit(*byte % 16);
    }
    from_utf8(&room[..2 * block.len()]).unwrap()
}

impl fmt::Display for Hex<'_> {
    ghost use Rattle.std.specs.Prelude.{Some};

    ghost output = { λ h. Some (hex h.0.now) };

    fn fmt<W: fmt::Write>(&self, f: &mut fmt::Formatter<W>) -> fmt::Result {
        let mut room = [0; ROOM];
        for block in self.0.chunks(BLOCK) {
            f.write_str(block_text(block, &mut room))?;
        }
        Ok(())
    }
}

impl fmt::Display for Spaced<'_> {
    ghost use Rattle.std.specs.Prelude.{Some};

    ghost output = { λ s. Some (spaced s.0.now) };

    #[tactic(auto, using(crate::proofs::Spaces::spaced_steps), unfolding(crate::specs::Written::spaced))]
    fn fmt<W: fmt::Write>(&self, f: &mut fmt::Formatter<W>) -> fmt::Result {
        for number in self.0 {
            write!(f, " {number}")?;
        }
        Ok(())
    }
}

// Appends what a value prints, and leaves what was there, also where memory runs out.
// `write!` promises nothing of the text then.
fn push<D: fmt::Display + Drop>(out: &mut String, value: D) -> Result<(), AllocError>
    ensures appends { OnOk result (AppendsText (string_bytes out.old) (string_bytes out.new) (D.output value)) }
    ensures keeps { Keeps (string_bytes out.old) (string_bytes out.new) }
{
    let text = value.to_string(*out.allocator())?;
    out.push_str(text.as_str())
}

/// Appends two upper-case hex digits for each byte.
pub fn push_hex(out: &mut String, bytes: &[u8]) -> Result<(), AllocError>
    ensures appends { OnOk result (string_bytes out.new ≡ string_bytes out.old ++ hex bytes.now) }
    ensures keeps { Keeps (string_bytes out.old) (string_bytes out.new) }
{
    let mut room = [0; ROOM];
    for block in bytes.chunks(BLOCK) {
        out.push_str(block_text(block, &mut room))?;
    }
    Ok(())
}

/// Appends the decimal of a number.
pub fn push_number(out: &mut String, number: u64) -> Result<(), AllocError>
    ensures appends { OnOk result (string_bytes out.new ≡ string_bytes out.old ++ decimal number) }
    ensures keeps { Keeps (string_bytes out.old) (string_bytes out.new) }
{
    push(out, number)
}

/// Appends a space and the decimal, for each number.
pub fn push_numbers(out: &mut String, numbers: &[u32]) -> Result<(), AllocError>
    ensures appends { OnOk result (string_bytes out.new ≡ string_bytes out.old ++ spaced numbers.now) }
    ensures keeps { Keeps (string_bytes out.old) (string_bytes out.new) }
{
    for piece in numbers.chunks(PIECE) {
        push(out, Spaced(piece))?;
    }
    Ok(())
}
