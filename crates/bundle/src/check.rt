// The check of a whole bundle.
ghost use Rattle.std.specs.Prelude.{IfOk, string_bytes};
ghost use Rattle.std.specs.List.{AllByRecursion};
ghost use Rattle.law.specs.Whole.{OfPattern};
ghost use Rattle.machines.specs.Set.Starting.{StartsReached};
ghost use Rattle.notation.specs.Expressions.{Regex};
ghost use Rattle.notation.specs.Reading.{ReadAs};
ghost use Rattle.bundle.specs.Checks.{Outcome, Prints, Started};
ghost use Rattle.bundle.specs.Handed.{left};
ghost use Rattle.bundle.specs.Layout.{OfBytes};

use crate::decode::Bundle;
use crate::filing::report;
use crate::report::Report;
use crate::walk::Strips;
use fault::Fault;
use folding::fold::Folding;
use folding::tally::Tallying;
use law::{machine_of, set_machine_of, start_machine_of};
use machines::{MOVES, PlaceMachine, SETS, SetMachine, build_sets};
use pattern::Pattern;
use roll::{LentMut, MOST_SLOTS};
use starts::build_starts;
use std::alloc::{AllocError, Global};

// How many starts there is room for.
pub const ROWS: usize = 96;

const CELLS: usize = 2 * MOST_SLOTS;

// Reads the pattern, builds its machines and files the strips into a roll of 128 slots; the first
// refusal ends it.
pub fn check(input: &[u8]) -> Result<Report, Fault>
    ensures outcome { Outcome input.now result }
{
    let bundle = Bundle::decode(input)?;
    let mut pattern = Pattern::new();
    pattern.read(bundle.pattern())?;
    let place = machine_of::<PlaceMachine>(&pattern);
    let mut sets = [0; SETS];
    let mut moves = [0; MOVES];
    let count = build_sets(&place, &mut sets, &mut moves)?;
    let set = set_machine_of::<PlaceMachine>(&pattern, place, count, &sets, &moves);
    judge(&pattern, &set, bundle.strips())
}

// From the set machine of the pattern on.
fn judge(pattern: &Pattern, set: &SetMachine, strips: Strips) -> Result<Report, Fault>
    requires of { OfPattern pattern.now set.now.place.tables }
    requires starts { StartsReached set.now.place.tables set.now.count set.now.moves.now }
    ensures started { (e : Regex) → ReadAs pattern.now e → AllByRecursion OfBytes (left strips.entry) → Started (left strips.entry) e result }
{
    let mut maps = [0; 64 * ROWS];
    let mut moves = [0; 256 * ROWS];
    let count = build_starts(set, &mut maps, &mut moves)?;
    let machine = start_machine_of::<SetMachine, PlaceMachine>(pattern, set, count, &maps, &moves);
    let mut legs = [machine.empty(); CELLS];
    let mut tallies = [Tallying.empty(); CELLS];
    let mut lent = LentMut {
        machine: &machine,
        legs: &mut legs,
        tallies: &mut tallies,
    };
    report(&mut lent, strips)
}

// The same as the text that a program prints.
pub fn answer(heap: Global, input: &[u8]) -> Result<String, AllocError>
    ensures text { IfOk result (λ s. Prints input.now (string_bytes s)) }
{
    match check(input) {
        Ok(report) => report.to_string(heap),
        Err(fault) => fault.to_string(heap),
    }
}
