// What a refused call answers: which refusal it is, the layer it comes from, and a place.
#![tactic(auto)]

ghost use Rattle.std.specs.Prelude.{◌≡◌, Some};
ghost use Rattle.fault.specs.Numbers.{number};
ghost use Rattle.fault.specs.Lines.{word, line};

use std::error::Error;
use std::fmt;

// The eleven refusals, each with its number; docs/refusals.md says when each is given.
#[derive(Clone, Copy, PartialEq, Eq, Debug)]
pub enum Refusal {
    PatternTooLong = 1,
    BadlyWritten = 2,
    TooManyPlaces = 3,
    TableLength = 4,
    TooManySets = 5,
    TooManyStarts = 6,
    StripTooLong = 7,
    SlotCount = 8,
    NoSuchSlot = 9,
    SlotEmpty = 10,
    BundleSize = 11,
}

impl Refusal {
    pub fn number(self) -> u8
        ensures value { result ≡ number self }
    {
        self as u8
    }
}

// The part of the library that a refusal comes from.
#[derive(Clone, Copy, PartialEq, Eq, Debug)]
pub enum Layer {
    Pattern,
    Build,
    Roll,
    Bundle,
}

impl Layer {
    pub fn word(self) -> &'static str
        ensures value { result.now ≡ word self }
    {
        match self {
            Layer::Pattern => "pattern",
            Layer::Build => "build",
            Layer::Roll => "roll",
            Layer::Bundle => "bundle",
        }
    }

    // The fault of a call of this layer.
    pub fn fault(self, refusal: Refusal, place: usize) -> Fault
        ensures value { result ≡ record { refusal = refusal; layer = self; place = place } }
    {
        Fault {
            refusal,
            layer: self,
            place,
        }
    }
}

impl fmt::Display for Layer {
    ghost output = { λ l. Some (word l) };

    fn fmt<W: fmt::Write>(&self, f: &mut fmt::Formatter<W>) -> fmt::Result {
        f.write_str(self.word())
    }
}

// `place` is a length, a position, a slot or a count, as the refusal says.
#[derive(Clone, Copy, PartialEq, Eq, Debug)]
pub struct Fault {
    pub refusal: Refusal,
    pub layer: Layer,
    pub place: usize,
}

impl fmt::Display for Fault {
    ghost output = { λ f. Some (line f) };

    fn fmt<W: fmt::Write>(&self, f: &mut fmt::Formatter<W>) -> fmt::Result {
        let number = self.refusal.number();
        let layer = self.layer;
        let place = self.place;
        write!(f, "refused {number} layer {layer} place {place}")
    }
}

// So that `?` carries a fault up into any error of a program.
impl Error for Fault {}
