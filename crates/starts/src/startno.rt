// The numbers of the start machine's states. A type of their own, so that to mix them up with the numbers
// of another machine's states does not compile.
ghost use Rattle.std.specs.Prelude.{◌≡◌, ◌%◌, ◌<◌};

use std::marker::Model;

// A start's number, in the order of first meeting; 0 is the map that leaves each state where it is. It
// is the leg of every text that makes its map: two bytes.
#[derive(Clone, Copy, PartialEq, Eq, Debug)]
pub struct StartNo {
    number: u16,
}

impl Model for StartNo {
    ghost use Rattle.std.specs.Prelude.{ℕ, ◌<◌};

    ghost Value = { ℕ };

    ghost view = { λ r. r.number };

    ghost invariant = { λ r. r.number < 512 };

    ghost inverse = { λ n. record { number = n } };
}

impl StartNo {
    pub fn identity() -> StartNo
        ensures value { result ≡ 0 }
    {
        StartNo { number: 0 }
    }

    // The start that has this number; past the last the numbers begin again.
    pub fn nth(index: usize) -> StartNo
        ensures value { result ≡ index % 512 }
    {
        StartNo {
            number: (index % 512) as u16,
        }
    }
}

impl From<StartNo> for usize {
    ghost from_gives = { λ start index. (index ≡ start) × (index < 512) };

    fn from(start: StartNo) -> usize {
        usize::from(start.number)
    }
}
