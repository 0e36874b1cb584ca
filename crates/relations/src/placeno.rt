// The numbers of the place machine's states. A type of their own, so that to mix them up with the
// numbers of another machine's states does not compile.
ghost use Rattle.std.specs.Prelude.{◌≡◌, ◌-◌, ◌%◌, ◌<◌, ◌≤◌, ◌⊎◌, MatchOption};

use std::marker::Model;

// A place's number, or 0 for the state before all places.
#[derive(Clone, Copy, PartialEq, Eq, Debug)]
pub struct PlaceNo {
    number: usize,
}

impl Model for PlaceNo {
    ghost use Rattle.std.specs.Prelude.{ℕ, ◌<◌};

    ghost Value = { ℕ };

    ghost view = { λ p. p.number };

    ghost invariant = { λ p. p.number < 64 };

    ghost inverse = { λ n. record { number = n } };
}

impl PlaceNo {
    // State 0, which is before all places.
    pub fn initial() -> PlaceNo
        ensures value { result ≡ 0 }
    {
        PlaceNo { number: 0 }
    }

    // The state whose row has this index; past the last the numbers begin again.
    pub fn nth(index: usize) -> PlaceNo
        ensures value { result ≡ index % 64 }
    {
        PlaceNo { number: index % 64 }
    }

    // The state that has this number once every place has moved `by` numbers on: the initial one stays
    // where it is, and the first `by` numbers are left to other places.
    pub fn earlier(self, by: usize) -> Option<PlaceNo>
        ensures value { MatchOption result ((1 ≤ self) × (self ≤ by)) (λ q. ((self ≡ 0) ⊎ (by < self)) × (q ≡ self - by)) }
    {
        match self.number {
            0 => Some(self),
            n if n > by => Some(PlaceNo { number: n - by }),
            _ => None,
        }
    }
}

impl From<PlaceNo> for usize {
    ghost from_gives = { λ place index. (index ≡ place) × (index < 64) };

    fn from(place: PlaceNo) -> usize {
        place.number
    }
}
