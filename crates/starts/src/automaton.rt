// Deterministic machines: in each state a byte leads to just one (complete deterministic automata).
ghost use Rattle.std.specs.Prelude.{◌≡◌, ℕ, ◌%◌, ◌<◌, ◌≤◌, List, [], Decides, MatchBool};
ghost use Rattle.folding.specs.Sets.{Hopeful, Lost};
ghost use Rattle.folding.specs.Texts.{Bytes};
ghost use Rattle.starts.specs.Automata.{led};

// At most 64 states, numbered from 0, where texts begin. Its states have numbers of a type of their own.
pub trait Automaton {
    type State: Copy;

    ghost number: { Self.State → ℕ };

    ghost count: { Self → ℕ };

    ghost moved: { Self → ℕ → ℕ → ℕ };

    ghost means: { Self → List ℕ → Type 0 };

    // The state of this number; past the last that there can be the numbers begin again.
    fn state(index: usize) -> Self::State
        ensures value { number result ≡ index % 64 };

    fn index(state: Self::State) -> usize
        ensures value { result ≡ number state }
        ensures few { result < 64 };

    fn states(&self) -> usize
        ensures value { result ≡ count self.now };

    fn next(&self, from: Self::State, c: u8) -> Self::State
        ensures value { number result ≡ moved self.now (number from) c };

    // Whether the texts that lead here are meant.
    fn accepting(&self, at: Self::State) -> bool
        ensures cases { (w : List ℕ) → Bytes w → number at ≡ led (moved self.now) w 0 → Decides result (means self.now w) };

    // Whether the texts that lead here are lost.
    fn dead(&self, at: Self::State) -> bool
        ensures cases { (w : List ℕ) → Bytes w → number at ≡ led (moved self.now) w 0 → MatchBool result (Lost (means self.now) w) (Hopeful (means self.now) w) };

    ghost few: { (m : Self) → (1 ≤ count m) × (count m ≤ 64) };

    ghost closed: { (m : Self) (s c : ℕ) → s < count m → c < 256 → moved m s c < count m };

    ghost inhabited: { (m : Self) → Hopeful (means m) [] };
}
