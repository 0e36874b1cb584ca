// The start machine of a pattern, and its tests.
mod building;
mod legs;
mod tables;

use crate::set::set_machine;
use fault::Fault;
use machines::set::build::{MOVES, SETS};
use starts::build_starts;

// How many starts there are, which are left in the tables that are lent.
pub(crate) fn starts_of(pattern: &str, maps: &mut [u8], moves: &mut [u16]) -> Result<usize, Fault> {
    let mut sets = [0; SETS];
    let mut sets_moves = [0; MOVES];
    let set = set_machine(pattern, &mut sets, &mut sets_moves)?;
    build_starts(&set, maps, moves)
}
