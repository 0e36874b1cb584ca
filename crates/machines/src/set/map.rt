// Maps of set numbers: what a text does to every set at once (in the field: a transformation).
ghost use Rattle.std.specs.Prelude.{◌≡◌, slice_index, slice_set};
ghost use Rattle.machines.specs.Set.Maps.{identity as identity_map, composed};

use crate::set::setno::SetNo;
use std::array;

// Entry s is where set s is sent. All 64 numbers that there can be, since a leg needs no memory but its
// own; a number that no set has stays where it is.
#[derive(Clone, Copy)]
pub struct SetMap {
    to: [SetNo; 64],
}

impl SetMap {
    // Each set stays where it is.
    pub fn identity() -> SetMap
        ensures value { result ≡ identity_map }
    {
        SetMap {
            to: array::from_fn(|s| SetNo::nth(s)),
        }
    }

    // Where the set is sent.
    pub fn to(&self, from: SetNo) -> SetNo
        ensures value { result ≡ slice_index self.now.to from }
    {
        self.to[usize::from(from)]
    }

    // Sends one set elsewhere.
    pub(crate) fn send(&mut self, number: SetNo, to: SetNo)
        ensures value { self.new ≡ record { to = slice_set self.old.to number to } }
    {
        self.to[usize::from(number)] = to;
    }

    // First this one, then `second`.
    pub fn then(&self, second: &SetMap) -> SetMap
        ensures value { result ≡ composed self.now second.now }
    {
        SetMap {
            to: array::from_fn(|s| second.to(self.to(SetNo::nth(s)))),
        }
    }
}
