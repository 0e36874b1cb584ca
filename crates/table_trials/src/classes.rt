// Classes over all 256 bytes: what each takes, by the three machines, and where a class that would take
// none can't be continued.
mod left;
mod named;

use fault::Fault;
use folding::fold::{Folding, Judging};
use machines::set::build::{MOVES, SETS, build_sets};
use machines::{SetMachine, build};
use pattern::Pattern;
use starts::{StartMachine, build_starts};

// Bytes, by a first and a last one.
type Range = (u8, u8);

fn means<M: Judging>(machine: &M, text: &[u8]) -> bool {
    machine.accepts(&machine.extend(&machine.empty(), text))
}

// Whether each machine accepts the text of one byte exactly where the byte is in the ranges or, of `others`,
// where it is not.
fn takes(pattern: &[u8], ranges: &[Range], others: bool) -> Result<bool, Fault> {
    let mut read = Pattern::new();
    read.read(pattern)?;
    let place = build(&read);
    let mut sets = [0; SETS];
    let mut moves = [0; MOVES];
    let count = build_sets(&place, &mut sets, &mut moves)?;
    let set = SetMachine::new(place, count, &sets, &moves);
    let mut maps = [0; 64 * 8];
    let mut starts_moves = [0; 256 * 8];
    let count = build_starts(&set, &mut maps, &mut starts_moves)?;
    let start = StartMachine::new(&set, count, &maps, &starts_moves);
    for c in 0..=255 {
        let taken = ranges.iter().any(|(low, high)| *low <= c && c <= *high) != others;
        let said = [means(&place, &[c]), means(&set, &[c]), means(&start, &[c])];
        if said != [taken; 3] {
            return Ok(false);
        }
    }
    Ok(true)
}
