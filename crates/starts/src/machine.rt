// The start machine (the automaton of the transformations that texts make): a judging machine whose leg
// of a text is one number, and whose step is one look-up.
ghost use Rattle.std.specs.Prelude.{◌≡◌, ℕ, ◌*◌, ◌%◌, ◌<◌, ◌≤◌, List, length, map, slice_index, unwrap_or};
ghost use Rattle.folding.specs.Texts.{Bytes, AllBytes, together};
ghost use Rattle.std.specs.List.{slice_get};
ghost use Rattle.starts.specs.Automata.{led};
ghost use Rattle.starts.specs.Maps.{identity, rows};
ghost use Rattle.starts.specs.Runs.{leg as leg_of, move_of, StartBuilt};
ghost use Rattle.starts.specs.Parts.{Lanes};
ghost use Rattle.starts.specs.Starts.{row as row_of, StartTables, Follows};

use crate::automaton::Automaton;
use crate::startno::StartNo;
use crate::statemap::StateMap;
use folding::fold::{Folding, Judging};
use numbering::space::Point;

// The shortest text that is worth cutting: eight maps have to be composed, and their start to be found.
const LONG: usize = 512;

// Over the tables that a granted build left, and the automaton that they were built of.
#[derive(Drop)]
pub struct StartMachine<'a, A: Automaton> {
    automaton: &'a A,
    count: usize,
    maps: &'a [u8],
    moves: &'a [u16],
    ghost follows: { Follows (A.count automaton.now) (A.moved automaton.now) count maps.now moves.now },
}

impl<'a, A: Automaton> StartMachine<'a, A> {
    pub fn new(
        automaton: &'a A,
        count: usize,
        maps: &'a [u8],
        moves: &'a [u16],
    ) -> StartMachine<'a, A>
        requires tables { StartTables (A.count automaton.now) (A.moved automaton.now) count maps.now moves.now }
        ensures over { (result.automaton.now ≡ automaton.now) × (result.count ≡ count) × (result.maps.now ≡ maps.now) × (result.moves.now ≡ moves.now) }
        ensures built { StartBuilt (A.count automaton.now) (A.moved automaton.now) count maps.now (⟦<StartMachine<'a, A> as Judging>⟧.means result) (A.means automaton.now) (⟦<StartMachine<'a, A> as Folding>⟧.leg result) }
    {
        StartMachine {
            automaton,
            count,
            maps,
            moves,
        }
    }

    // Where the byte leads from a start; a number that no start has is looked up all the same.
    pub fn next(&self, from: StartNo, c: u8) -> StartNo
        ensures entry { result ≡ move_of self.now.moves.now from c % 512 }
        ensures value { from < self.now.count → result ≡ move_of self.now.moves.now from c }
    {
        let at = 256 * usize::from(from) + usize::from(c);
        StartNo::nth(usize::from(self.moves.get(at).copied().unwrap_or(0)))
    }

    // The map of a start; of a number that has no row, the map that sends all to 0.
    pub fn map(&self, start: StartNo) -> StateMap
        ensures entry { result ≡ unwrap_or (slice_get (rows self.now.maps.now) start) (identity 0) }
        ensures value { start < self.now.count → result ≡ row_of self.now.maps.now start }
    {
        StateMap::get(self.maps, usize::from(start)).unwrap_or(StateMap::identity(0))
    }

    // The start of a map, of those that there are.
    fn start_of(&self, map: &StateMap) -> StartNo
        ensures value { (r : ℕ) → r < self.now.count → map.now ≡ row_of self.now.maps.now r → result ≡ r }
    {
        StartNo::nth(map.find(self.maps, self.count).unwrap_or(0))
    }

    // Where the text leads from a start, byte by byte.
    fn walk(&self, from: StartNo, text: &[u8]) -> StartNo
        ensures value { from < self.now.count → result ≡ led (move_of self.now.moves.now) text.now from }
    {
        let mut at = from;
        for c in text {
            at = self.next(at, *c);
        }
        at
    }

    // Where each of the first eight parts of the text, of `part` bytes, leads from its lane's start.
    // The lanes are stepped side by side, so that no look-up waits for another's.
    fn walk_parts(&self, from: [usize; 8], text: &[u8], part: usize) -> [usize; 8]
        requires starts { (j : ℕ) → slice_index from j < self.now.count }
        requires parts { 8 * part ≤ length text.now }
        ensures lanes { Lanes (move_of self.now.moves.now) self.now.count text.now part from part result }
    {
        let moves = self.moves;
        let mut lanes = from;
        for i in 0..part {
            for j in 0..8 {
                lanes[j] = usize::from(moves[256 * lanes[j] + usize::from(text[part * j + i])]);
            }
        }
        lanes
    }

    // The start of the maps of these starts, composed in order.
    fn join_all(&self, starts: &[usize]) -> StartNo
        ensures joins { (texts : List (List ℕ)) → AllBytes texts → starts.now ≡ map (leg_of self.now.moves.now) texts → result ≡ leg_of self.now.moves.now (together texts) }
    {
        let states = self.automaton.states();
        let mut both = StateMap::identity(states);
        for start in starts {
            both = both.then(&self.map(StartNo::nth(*start)), states);
        }
        self.start_of(&both)
    }

    // The state that texts of this leg lead to.
    fn state(&self, at: StartNo) -> A::State
        ensures value { (w : List ℕ) → Bytes w → at ≡ leg_of self.now.moves.now w → A.number result ≡ led (A.moved self.now.automaton.now) w 0 }
    {
        A::state(self.map(at).to(0))
    }
}

impl<A: Automaton> Folding for StartMachine<'_, A> {
    type Leg = StartNo;

    ghost leg = { λ m w. leg_of m.moves.now w };

    fn empty(&self) -> StartNo {
        StartNo::identity()
    }

    fn step(&self, at: &StartNo, c: u8) -> StartNo {
        self.next(*at, c)
    }

    fn join(&self, first: &StartNo, second: &StartNo) -> StartNo {
        let both = self
            .map(*first)
            .then(&self.map(*second), self.automaton.states());
        self.start_of(&both)
    }

    fn extend(&self, at: &StartNo, text: &[u8]) -> StartNo {
        let from = usize::from(*at);
        // A number that is no text's leg has no row.
        if text.len() < LONG || from >= self.count {
            return self.walk(*at, text);
        }
        let part = text.len() / 8;
        let lanes = self.walk_parts([from, 0, 0, 0, 0, 0, 0, 0], text, part);
        self.walk(self.join_all(&lanes), &text[8 * part..])
    }
}

impl<A: Automaton> Judging for StartMachine<'_, A> {
    ghost means = { λ m w. A.means m.automaton.now w };

    ghost inhabited = { λ m. A.inhabited m.automaton.now };

    fn accepts(&self, at: &StartNo) -> bool {
        self.automaton.accepting(self.state(*at))
    }

    fn lost(&self, at: &StartNo) -> bool {
        self.automaton.dead(self.state(*at))
    }
}
