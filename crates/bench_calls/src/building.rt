// The machines of a pattern, and what is asked of one of them.
ghost use Rattle.std.specs.Prelude.{◌≡◌, ◌*◌, ◌≤◌, length};
ghost use Rattle.bench_calls.specs.Answers.{Verdict, over};
ghost use Rattle.law.specs.Order.{AfterReading, AfterSets, AfterStarts};
ghost use Rattle.law.specs.Whole.{OfPattern};
ghost use Rattle.machines.specs.Set.Starting.{StartsReached};
ghost use Rattle.notation.specs.Expressions.{Regex};
ghost use Rattle.notation.specs.Meaning.{Matches};
ghost use Rattle.notation.specs.Reading.{ReadAs};

use crate::question::Question;
use crate::repetition::judged;
use fault::Fault;
use law::{machine_of, set_machine_of, start_machine_of};
use machines::{MOVES, PlaceMachine, SETS, SetMachine, build_sets};
use pattern::Pattern;
use starts::build_starts;

pub(crate) fn under_place(bytes: &[u8], text: &[u8], times: u32) -> Result<bool, Fault>
    ensures outcome { AfterReading bytes.now (λ e. Verdict (Matches e) (over times text.now)) result }
{
    let mut pattern = Pattern::new();
    pattern.read(bytes)?;
    let place = machine_of::<PlaceMachine>(&pattern);
    Ok(judged(&place, text, times))
}

pub(crate) fn under_set(bytes: &[u8], text: &[u8], times: u32) -> Result<bool, Fault>
    ensures outcome { AfterReading bytes.now (AfterSets (λ e. Verdict (Matches e) (over times text.now))) result }
{
    let mut pattern = Pattern::new();
    pattern.read(bytes)?;
    let place = machine_of::<PlaceMachine>(&pattern);
    let mut sets = [0; SETS];
    let mut moves = [0; MOVES];
    let count = build_sets(&place, &mut sets, &mut moves)?;
    let set = set_machine_of::<PlaceMachine>(&pattern, place, count, &sets, &moves);
    Ok(judged(&set, text, times))
}

// With so many rows as the tables have.
pub(crate) fn under_start<Q: Question>(
    bytes: &[u8],
    rows: usize,
    maps: &mut [u8],
    moves: &mut [u16],
    question: &Q,
) -> Result<bool, Fault>
    requires some { 1 ≤ rows }
    requires most { rows ≤ 512 }
    requires maps { length maps.old ≡ 64 * rows }
    requires moves { length moves.old ≡ 256 * rows }
    ensures outcome { AfterReading bytes.now (AfterSets (AfterStarts rows (Q.comes question.now))) result }
{
    let mut pattern = Pattern::new();
    pattern.read(bytes)?;
    let place = machine_of::<PlaceMachine>(&pattern);
    let mut sets = [0; SETS];
    let mut moves_of_sets = [0; MOVES];
    let count = build_sets(&place, &mut sets, &mut moves_of_sets)?;
    let set = set_machine_of::<PlaceMachine>(&pattern, place, count, &sets, &moves_of_sets);
    from_starts(&pattern, &set, rows, maps, moves, question)
}

// From the set machine of the pattern on.
fn from_starts<Q: Question>(
    pattern: &Pattern,
    set: &SetMachine,
    rows: usize,
    maps: &mut [u8],
    moves: &mut [u16],
    question: &Q,
) -> Result<bool, Fault>
    requires some { 1 ≤ rows }
    requires most { rows ≤ 512 }
    requires maps { length maps.old ≡ 64 * rows }
    requires moves { length moves.old ≡ 256 * rows }
    requires of { OfPattern pattern.now set.now.place.tables }
    requires starts { StartsReached set.now.place.tables set.now.count set.now.moves.now }
    ensures outcome { (e : Regex) → ReadAs pattern.now e → AfterStarts rows (Q.comes question.now) e result }
{
    let count = build_starts(set, maps, moves)?;
    let machine = start_machine_of::<SetMachine, PlaceMachine>(pattern, set, count, maps, moves);
    question.put(&machine)
}
