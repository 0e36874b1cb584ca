// The set machine (the deterministic automaton of the subset construction): a judging machine whose leg
// of a text is the map of set numbers that the text makes.
ghost use Rattle.std.specs.Prelude.{◌≡◌, ◌+◌, ◌*◌, ◌%◌, ◌<◌, slice_index};
ghost use Rattle.folding.specs.Legs.{Extends};
ghost use Rattle.machines.specs.Place.Shown.Machine.{made_inhabited};
ghost use Rattle.machines.specs.Place.Tables.{Meant};
ghost use Rattle.starts.specs.Automata.{led};
ghost use Rattle.starts.specs.Runs.{move_of};
ghost use Rattle.machines.specs.Set.Runs.{moved_by, transformation};
ghost use Rattle.machines.specs.Set.Built.{SetBuilt};
ghost use Rattle.machines.specs.Set.Shown.{moved_within};
ghost use Rattle.machines.specs.Set.Starting.{StartsReached};
ghost use Rattle.machines.specs.Set.Tables.{SetTables, Simulates};

// The numbers of its states, the maps of them, and the build of its tables.
pub mod build;
pub mod map;
pub mod setno;

use crate::place::PlaceMachine;
use crate::set::map::SetMap;
use crate::set::setno::SetNo;
use folding::fold::{Folding, Judging};
use starts::Automaton;

// How many bytes `extend` walks before it looks again how few sets they lead to.
const FIRST_PIECE: usize = 16;

// Over the tables that a granted build left. It steps by them alone; of the place machine it asks only
// which states accept.
#[derive(Clone, Copy)]
pub struct SetMachine<'a> {
    place: PlaceMachine,
    count: usize,
    sets: &'a [u64],
    moves: &'a [u8],
    ghost simulates: { Simulates place.tables count sets.now moves.now },
}

impl<'a> SetMachine<'a> {
    pub fn new(
        place: PlaceMachine,
        count: usize,
        sets: &'a [u64],
        moves: &'a [u8],
    ) -> SetMachine<'a>
        requires tables { SetTables place.tables count sets.now moves.now }
        ensures over { (result.place ≡ place) × (result.count ≡ count) × (result.sets.now ≡ sets.now) × (result.moves.now ≡ moves.now) }
        ensures starts { StartsReached result.place.tables result.count result.moves.now }
        ensures built { SetBuilt place.tables count sets.now (⟦<SetMachine<'a> as Judging>⟧.means result) (⟦<SetMachine<'a> as Folding>⟧.leg result) }
    {
        SetMachine {
            place,
            count,
            sets,
            moves,
        }
    }

    // Where the byte leads from a set.
    pub fn next(&self, from: SetNo, c: u8) -> SetNo
        ensures entry { result ≡ moved_by self.now.moves.now from c }
        ensures value { from < self.now.count → result ≡ slice_index self.now.moves.now (256 * from + c) }
    {
        SetNo::nth(usize::from(self.moves[256 * usize::from(from) + usize::from(c)]))
    }

    // Where the text leads from a set.
    fn walk(&self, from: SetNo, text: &[u8]) -> SetNo
        ensures value { from < self.now.count → result ≡ led (move_of self.now.moves.now) text.now from }
    {
        let mut at = from;
        for c in text {
            at = self.next(at, *c);
        }
        at
    }

    // Where the text leads from where the map does: one walk for each set that the map leads to.
    fn onward(&self, at: &SetMap, text: &[u8]) -> SetMap
        ensures extends { Extends (transformation self.now.count self.now.moves.now) at.now text.now result }
    {
        let mut map = *at;
        let mut walks = SetMap::identity();
        let mut walked = [false; 64];
        for index in 0..self.count {
            let number = SetNo::nth(index);
            let from = at.to(number);
            if !walked[usize::from(from)] {
                walks.send(from, self.walk(from, text));
                walked[usize::from(from)] = true;
            }
            map.send(number, walks.to(from));
        }
        map
    }

    // The set of a number.
    fn set(&self, number: SetNo) -> u64
        ensures value { result ≡ slice_index self.now.sets.now number }
    {
        self.sets[usize::from(number)]
    }
}

impl Folding for SetMachine<'_> {
    type Leg = SetMap;

    ghost leg = { λ m w. transformation m.count m.moves.now w };

    fn empty(&self) -> SetMap {
        SetMap::identity()
    }

    fn step(&self, at: &SetMap, c: u8) -> SetMap {
        let mut map = *at;
        for s in 0..self.count {
            let number = SetNo::nth(s);
            map.send(number, self.next(at.to(number), c));
        }
        map
    }

    fn join(&self, first: &SetMap, second: &SetMap) -> SetMap {
        first.then(second)
    }

    fn extend(&self, at: &SetMap, text: &[u8]) -> SetMap {
        let mut map = *at;
        let mut done = 0;
        while done < text.len() {
            // As long as all that came before: a longer text mostly leads to fewer sets.
            let end = (2 * done).max(FIRST_PIECE).min(text.len());
            map = self.onward(&map, &text[done..end]);
            done = end;
        }
        map
    }
}

impl Judging for SetMachine<'_> {
    ghost means = { λ m w. Meant m.place.tables w };

    ghost inhabited = { λ m. made_inhabited m.place.tables m.place.made };

    fn accepts(&self, at: &SetMap) -> bool {
        self.place.accepting(self.set(at.to(SetNo::initial())))
    }

    fn lost(&self, at: &SetMap) -> bool {
        self.set(at.to(SetNo::initial())) == 0
    }
}

// The set machine as a deterministic machine, which the start machine can stand over.
impl Automaton for SetMachine<'_> {
    type State = SetNo;

    ghost number = { λ s. s };

    ghost count = { λ m. m.count };

    ghost moved = { λ m s c. moved_by m.moves.now s c };

    ghost means = { λ m w. Meant m.place.tables w };

    fn state(index: usize) -> SetNo
        ensures value { result ≡ index % 64 }
    {
        SetNo::nth(index)
    }

    fn index(state: SetNo) -> usize
        ensures value { result ≡ state }
        ensures few { result < 64 }
    {
        usize::from(state)
    }

    fn states(&self) -> usize {
        self.count
    }

    fn next(&self, from: SetNo, c: u8) -> SetNo {
        self.next(from, c)
    }

    fn accepting(&self, at: SetNo) -> bool {
        self.place.accepting(self.set(at))
    }

    fn dead(&self, at: SetNo) -> bool {
        self.set(at) == 0
    }

    ghost few = { λ m. (m.simulates.0, m.simulates.1) };

    ghost closed = { λ m s c low byte. moved_within m.place.tables m.count m.sets.now m.moves.now m.simulates s c low byte };

    ghost inhabited = { λ m. made_inhabited m.place.tables m.place.made };
}
