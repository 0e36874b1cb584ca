// What is numbered: points, and how a table keeps them.
ghost use Rattle.std.specs.Prelude.{◌≡◌, ℕ, ◌<◌, List, length, take, true, Contains, Decides, MatchOption, Some, slice_set};
ghost use Rattle.std.specs.List.{slice_get};

// A first point, and for each point the next one at each byte.
pub trait Space<P> {
    ghost first: { Self → P };

    ghost next: { Self → P → ℕ → P };

    fn first(&self) -> P
        ensures value { result ≡ first self.now };

    fn next(&self, point: &P, c: u8) -> P
        ensures value { result ≡ next self.now point.now c };

    // Says so only of bytes that no point tells apart, and need not say so of all.
    fn alike(&self, b: u8, c: u8) -> bool
        ensures same { result ≡ true → (p : P) → next self.now p b ≡ next self.now p c };
}

// Points that are kept in a table of cells, each at its number.
pub trait Point: Copy {
    type Cell: Copy;

    ghost kept: { List Self.Cell → List Self };

    fn get(cells: &[Self::Cell], number: usize) -> Option<Self>
        ensures value { result ≡ slice_get (kept cells.now) number };

    // A number of this point among the first `count`, if there is one.
    fn find(&self, cells: &[Self::Cell], count: usize) -> Option<usize>
        ensures cases { MatchOption result (Contains (take count (kept cells.now)) self.now → ⊥) (λ n. slice_get (take count (kept cells.now)) n ≡ Some self.now) };

    // Says whether there is room.
    fn put(&self, cells: &mut [Self::Cell], number: usize) -> bool
        ensures cases { Decides result (number < length (kept cells.old)) }
        ensures cells { kept cells.new ≡ slice_set (kept cells.old) number self.now };
}

// A number is kept as it is.
impl Point for u64 {
    type Cell = u64;

    ghost kept = { λ cells. cells };

    fn get(cells: &[u64], number: usize) -> Option<u64> {
        cells.get(number).copied()
    }

    fn find(&self, cells: &[u64], count: usize) -> Option<usize> {
        cells.iter().take(count).position(|cell| cell == self)
    }

    fn put(&self, cells: &mut [u64], number: usize) -> bool {
        let room = number < cells.len();
        if room {
            cells[number] = *self;
        }
        room
    }
}
