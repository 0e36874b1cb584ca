// The numbers of the set machine's states. A type of their own, so that to mix them up with the numbers
// of another machine's states does not compile.
ghost use Rattle.std.specs.Prelude.{◌≡◌, ◌%◌, ◌<◌};

use std::marker::Model;

// A set's number, in the order of first meeting.
#[derive(Clone, Copy, PartialEq, Eq, Debug)]
pub struct SetNo {
    number: u8,
}

impl Model for SetNo {
    ghost use Rattle.std.specs.Prelude.{ℕ, ◌<◌};

    ghost Value = { ℕ };

    ghost view = { λ s. s.number };

    ghost invariant = { λ s. s.number < 64 };

    ghost inverse = { λ n. record { number = n } };
}

impl SetNo {
    // The set of state 0 alone.
    pub fn initial() -> SetNo
        ensures value { result ≡ 0 }
    {
        SetNo { number: 0 }
    }

    // The set that has this number; past the last the numbers begin again.
    pub fn nth(index: usize) -> SetNo
        ensures value { result ≡ index % 64 }
    {
        SetNo {
            number: (index % 64) as u8,
        }
    }
}

impl From<SetNo> for usize {
    ghost from_gives = { λ set index. (index ≡ set) × (index < 64) };

    fn from(set: SetNo) -> usize {
        usize::from(set.number)
    }
}
