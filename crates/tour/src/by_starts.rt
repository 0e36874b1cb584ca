// The same roll under the start machine, which is the one to take for long texts: a byte is one
// look-up, and a leg is two bytes.
use crate::answers::tell;
use crate::filing::fill;
use folding::fold::Folding;
use folding::tally::Tallying;
use machines::{MOVES, PlaceMachine, SETS, SetMachine, build_sets};
use roll::{LentMut, Roll};
use starts::{StartMachine, build_starts};

// How many starts there is room for: this pattern has eight.
const ROWS: usize = 8;

// The tables are lent for the builds, and then for as long as the machines are used.
pub(crate) fn roll_by_starts(rt: &impl Print, place: PlaceMachine) -> anyhow::Result<()> {
    let mut sets = [0; SETS];
    let mut moves = [0; MOVES];
    let count = build_sets(&place, &mut sets, &mut moves)?;
    let set = SetMachine::new(place, count, &sets, &moves);
    let mut maps = [0; 64 * ROWS];
    let mut start_moves = [0; 256 * ROWS];
    let starts = build_starts(&set, &mut maps, &mut start_moves)?;
    println!(rt; "{count} sets, {starts} starts")?;
    let machine = StartMachine::new(&set, starts, &maps, &start_moves);
    roll_under(rt, &machine)
}

fn roll_under(rt: &impl Print, machine: &StartMachine<SetMachine>) -> anyhow::Result<()> {
    let mut lent = LentMut {
        machine,
        legs: &mut [machine.empty(); 8],
        tallies: &mut [Tallying.empty(); 8],
    };
    let mut roll = Roll::new::<StartMachine<SetMachine>, StartMachine<SetMachine>>();
    roll.open(&mut lent, 4)?;
    fill(&mut roll, &mut lent)?;
    tell(rt, "by starts", &roll, &lent)
}
