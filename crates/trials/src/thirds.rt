// Judges whether a text's length is a multiple of three. No text is ever lost to it.
ghost use Rattle.trials.specs.Thirds.{rest, ByThrees};
ghost use Rattle.std.proofs.Common.{rules};

use folding::fold::{Folding, Judging};

#[derive(Clone, Copy)]
pub struct Thirds;

impl Folding for Thirds {
    type Leg = u8;

    ghost leg = { λ _ w. rest w };

    fn empty(&self) -> u8 {
        0
    }

    fn step(&self, at: &u8, _c: u8) -> u8 {
        (*at % 3 + 1) % 3
    }

    fn join(&self, first: &u8, second: &u8) -> u8 {
        (*first % 3 + *second % 3) % 3
    }
}

impl Judging for Thirds {
    ghost means = { λ _ w. ByThrees w };

    ghost inhabited = { Prim.search rules };

    fn accepts(&self, at: &u8) -> bool {
        *at == 0
    }

    fn lost(&self, _at: &u8) -> bool {
        false
    }
}
