// A judging machine for the texts with no byte 0. A text with one is lost.
ghost use Rattle.trials.specs.Zeroless.{has_zero, Zeroless as ZerolessText};
ghost use Rattle.std.proofs.Common.{rules};

use folding::fold::{Folding, Judging};

#[derive(Clone, Copy)]
pub struct Zeroless;

impl Folding for Zeroless {
    type Leg = bool;

    ghost leg = { λ _ w. has_zero w };

    fn empty(&self) -> bool {
        false
    }

    fn step(&self, at: &bool, c: u8) -> bool {
        *at | (c == 0)
    }

    fn join(&self, first: &bool, second: &bool) -> bool {
        *first | *second
    }
}

impl Judging for Zeroless {
    ghost means = { λ _ w. ZerolessText w };

    ghost inhabited = { Prim.search rules };

    fn accepts(&self, at: &bool) -> bool {
        !*at
    }

    fn lost(&self, at: &bool) -> bool {
        *at
    }
}
