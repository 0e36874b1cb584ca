// A judging machine of one's own: the texts that have at most so many line ends.
ghost use Rattle.std.specs.Prelude.{◌≡◌, ◌+◌};
ghost use Rattle.tour.specs.FewLines.{kept, Few};
ghost use Rattle.std.proofs.Common.{rules};

use folding::fold::{Folding, Judging};

#[derive(Clone, Copy)]
pub struct FewLines {
    pub most: u8,
}

impl FewLines {
    // No text need be counted further: it has too many then.
    fn limit(&self) -> u16
        ensures value { result ≡ self.now.most + 1 }
    {
        u16::from(self.most) + 1
    }
}

impl Folding for FewLines {
    type Leg = u16;

    ghost leg = { λ m w. kept m.most w };

    fn empty(&self) -> u16 {
        0
    }

    fn step(&self, at: &u16, c: u8) -> u16 {
        at.saturating_add(u16::from(c == b'\n')).min(self.limit())
    }

    fn join(&self, first: &u16, second: &u16) -> u16 {
        first.saturating_add(*second).min(self.limit())
    }
}

impl Judging for FewLines {
    ghost means = { λ m w. Few m.most w };

    ghost inhabited = { Prim.search rules };

    fn accepts(&self, at: &u16) -> bool {
        *at <= u16::from(self.most)
    }

    // Line ends do not go away again.
    fn lost(&self, at: &u16) -> bool {
        *at > u16::from(self.most)
    }
}
