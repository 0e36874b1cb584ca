// The set machine of a pattern, and its tests.
mod building;
pub(crate) mod legs;
pub(crate) mod tables;

use fault::Fault;
use machines::{SetMachine, build, build_sets};
use pattern::Pattern;

// Over the tables that are lent.
pub(crate) fn set_machine<'a>(
    pattern: &str,
    sets: &'a mut [u64],
    moves: &'a mut [u8],
) -> Result<SetMachine<'a>, Fault> {
    let mut read = Pattern::new();
    read.read(pattern.as_bytes())?;
    let place = build(&read);
    let count = build_sets(&place, sets, moves)?;
    Ok(SetMachine::new(place, count, sets, moves))
}
