// The count of places while a pattern is read. It stops at 64: nested counts multiply past any
// number, and a count of 0 around them makes them 0 again. It is a number that stops, as a tally's
// do, and no Option: each part is one sum or product.
ghost use Rattle.std.specs.Prelude.{◌≡◌, min};
ghost use Rattle.notation.specs.Places.{places as places_of};

use crate::assembly::Assembly;
use crate::bytes::ByteSet;
use std::cmp;

#[derive(Clone, Copy)]
pub struct Count {
    pub(crate) places: u8,
}

fn cap(count: u16) -> Count
    ensures value { result.places ≡ min count 64 }
{
    Count {
        places: cmp::min(count, 64) as u8,
    }
}

impl Assembly for Count {
    ghost stands = { λ c e. c.places ≡ min (places_of e) 64 };

    fn nothing() -> Count {
        cap(0)
    }

    fn byte(b: u8) -> Count {
        cap(1)
    }

    fn any() -> Count {
        cap(1)
    }

    fn class(bytes: &ByteSet) -> Count {
        cap(1)
    }

    fn then(&self, second: &Count) -> Count {
        cap(u16::from(self.places) + u16::from(second.places))
    }

    fn either(&self, other: &Count) -> Count {
        cap(u16::from(self.places) + u16::from(other.places))
    }

    fn star(&self) -> Count {
        *self
    }

    fn plus(&self) -> Count {
        cap(2 * u16::from(self.places))
    }

    fn optional(&self) -> Count {
        *self
    }

    fn counted(&self, least: u8, most: u8) -> Count {
        cap(u16::from(most) * u16::from(self.places))
    }
}
