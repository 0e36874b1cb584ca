// Maps of an automaton's states: what a text does to each of them (in the field: a transformation).
ghost use Rattle.std.specs.Prelude.{◌≡◌, ◌%◌, ◌<◌, slice_index};
ghost use Rattle.starts.specs.Maps.{composed, identity as identity_map, then_byte, rows};

use crate::automaton::Automaton;
use numbering::space::Point;

// Entry s is the number of the state that s is sent to: a row of the table of maps. An entry of a state
// that there is not is 0.
#[derive(Clone, Copy)]
pub struct StateMap {
    to: [u8; 64],
}

impl StateMap {
    // Each of the states stays where it is.
    pub fn identity(states: usize) -> StateMap
        ensures value { result ≡ identity_map states }
    {
        let mut to = [0; 64];
        for s in 0..states.min(64) {
            to[s] = s as u8;
        }
        StateMap { to }
    }

    // Where state s is sent.
    pub fn to(&self, s: usize) -> usize
        ensures value { result ≡ slice_index self.now.to s % 64 }
    {
        usize::from(self.to.get(s).copied().unwrap_or(0)) % 64
    }

    // First this one, and then the byte.
    pub fn step<A: Automaton>(&self, automaton: &A, c: u8) -> StateMap
        ensures value { result ≡ then_byte (A.count automaton.now) (A.moved automaton.now) self.now c }
    {
        let mut to = [0; 64];
        for s in 0..automaton.states() {
            to[s] = A::index(automaton.next(A::state(self.to(s)), c)) as u8;
        }
        StateMap { to }
    }

    // First this one, and then `second`.
    pub fn then(&self, second: &StateMap, states: usize) -> StateMap
        ensures value { result ≡ composed states self.now second.now }
    {
        let mut to = [0; 64];
        for s in 0..states.min(64) {
            to[s] = second.to(self.to(s)) as u8;
        }
        StateMap { to }
    }
}

// A map is kept as a row of 64 bytes.
impl Point for StateMap {
    type Cell = u8;

    ghost kept = { λ cells. rows cells };

    fn get(cells: &[u8], number: usize) -> Option<StateMap> {
        let (rows, _) = cells.as_chunks::<64>();
        let row = rows.get(number)?;
        Some(StateMap { to: *row })
    }

    fn find(&self, cells: &[u8], count: usize) -> Option<usize> {
        let (rows, _) = cells.as_chunks::<64>();
        rows.iter().take(count).position(|row| *row == self.to)
    }

    fn put(&self, cells: &mut [u8], number: usize) -> bool {
        let room = number < cells.len() / 64;
        if room {
            cells[64 * number..64 * number + 64].copy_from_slice(&self.to);
        }
        room
    }
}
