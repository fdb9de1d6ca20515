//! What a rejected call answers: which rule was broken, in which layer, and where.
//! `specs/Faults.antt` has the numbers.
use std::fmt;

#[derive(Clone, Copy, PartialEq, Eq, Debug)]
pub enum Rejection {
    MalformedArray = 1,
    AboveLimit = 2,
    IndexOutside = 3,
    UnsuitedValue = 4,
    PageFull = 5,
    DictionaryFull = 6,
    MemoryFull = 7,
    KeysHeld = 8,
    ShortBuffer = 9,
    UnfitEncoding = 10,
    MalformedPage = 11,
    KeyOutside = 12,
}

#[derive(Clone, Copy, PartialEq, Eq, Debug)]
pub enum Layer {
    Array = 1,
    Store = 2,
    Form = 3,
    Writer = 4,
    Reader = 5,
}

#[derive(Clone, Copy, PartialEq, Eq, Debug)]
pub struct Fault {
    pub number: Rejection,
    pub layer: Layer,
    // an index, a key's number, a byte's offset or a buffer's number, as the call says
    pub place: usize,
}

impl From<Rejection> for u8 {
    ghost use Rattle.std.specs.Prelude.{◌≡◌};
    ghost use Rattle.page_format.specs.Faults.{rejection_number};

    ghost from_gives = { λ r n. n ≡ rejection_number r };

    fn from(rejection: Rejection) -> u8 {
        rejection as u8
    }
}

impl From<Layer> for u8 {
    ghost use Rattle.std.specs.Prelude.{◌≡◌};
    ghost use Rattle.page_format.specs.Faults.{layer_number};

    ghost from_gives = { λ l n. n ≡ layer_number l };

    fn from(layer: Layer) -> u8 {
        layer as u8
    }
}

impl Fault {
    ghost use Rattle.std.specs.Prelude.{◌≡◌};

    pub fn new(number: Rejection, layer: Layer, place: usize) -> Fault
        ensures { result ≡ record { number = number; layer = layer; place = place } }
    {
        Fault {
            number,
            layer,
            place,
        }
    }
}

// The word `fault`, and the three numbers.
impl fmt::Display for Fault {
    ghost use Rattle.std.specs.Prelude.{Some};
    ghost use Rattle.page_format.specs.Faults.{fault_text};

    ghost output = { λ f. Some (fault_text f) };

    fn fmt<W: fmt::Write>(&self, f: &mut fmt::Formatter<W>) -> fmt::Result {
        let number = u8::from(self.number);
        let layer = u8::from(self.layer);
        let place = self.place;
        write!(f, "fault {number} {layer} {place}")
    }
}
