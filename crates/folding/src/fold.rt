// The two interfaces: what summarises texts, and what judges them by their summaries.
ghost use Rattle.std.specs.Prelude.{◌≡◌, ℕ, List, [], Decides, MatchBool};
ghost use Rattle.folding.specs.Texts.{Bytes};
ghost use Rattle.folding.specs.Legs.{Steps, Extends, Joins};
ghost use Rattle.folding.specs.Sets.{Hopeful, Lost};

// A function from texts to legs that can be computed piece by piece: in the field's words a
// homomorphism from the monoid of texts. A leg is the summary of a text, as a transformation is
// of what a text does to the states of an automaton. None of the calls refuses or changes anything.
pub trait Folding {
    type Leg: Copy;

    ghost leg: { Self → List ℕ → Self.Leg };

    fn empty(&self) -> Self::Leg
        ensures value { result ≡ leg self.now [] };

    fn step(&self, at: &Self::Leg, c: u8) -> Self::Leg
        ensures steps { Steps (leg self.now) at.now c result };

    fn join(&self, first: &Self::Leg, second: &Self::Leg) -> Self::Leg
        ensures joins { Joins (leg self.now) first.now second.now result };

    // A machine may bring a faster one.
    fn extend(&self, at: &Self::Leg, text: &[u8]) -> Self::Leg
        ensures extends { Extends (leg self.now) at.now text.now result }
    {
        let mut r = *at;
        for c in text {
            r = self.step(&r, *c);
        }
        r
    }
}

// A folding with a set of texts, those it means. It tells from the leg of a text whether the text is
// in the set, and whether anything that follows can still bring it there.
pub trait Judging: Folding {
    ghost means: { Self → List ℕ → Type 0 };

    fn accepts(&self, at: &Self::Leg) -> bool
        ensures cases { (w : List ℕ) → Bytes w → at.now ≡ Self.Folding.leg self.now w → Decides result (means self.now w) };

    fn lost(&self, at: &Self::Leg) -> bool
        ensures cases { (w : List ℕ) → Bytes w → at.now ≡ Self.Folding.leg self.now w → MatchBool result (Lost (means self.now) w) (Hopeful (means self.now) w) };

    ghost inhabited: { (m : Self) → Hopeful (means m) [] };
}
