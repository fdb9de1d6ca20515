//! The encodings of a page, as far as they are written or read here. A page's header has an encoding's number.

#[derive(Clone, Copy, PartialEq, Eq, Debug)]
pub enum Encoding {
    Plain = 0,
    DeltaLengthByteArray = 6,
    DeltaByteArray = 7,
    RleDictionary = 8,
}

/// A number that none of our encodings has.
#[derive(Clone, Copy, PartialEq, Eq, Debug)]
pub struct UnknownEncoding(pub u64);

impl From<Encoding> for u8 {
    ghost use Rattle.std.specs.Prelude.{◌≡◌};
    ghost use Rattle.page_format.specs.Faults.{encoding_number};

    ghost from_gives = { λ e n. n ≡ encoding_number e };

    fn from(encoding: Encoding) -> u8 {
        encoding as u8
    }
}

impl TryFrom<u64> for Encoding {
    ghost use Rattle.page_format.specs.Faults.{HasEncoding};

    type Error = UnknownEncoding;

    ghost try_from_gives = { HasEncoding };

    fn try_from(number: u64) -> Result<Encoding, UnknownEncoding> {
        match number {
            0 => Ok(Encoding::Plain),
            6 => Ok(Encoding::DeltaLengthByteArray),
            7 => Ok(Encoding::DeltaByteArray),
            8 => Ok(Encoding::RleDictionary),
            _ => Err(UnknownEncoding(number)),
        }
    }
}
