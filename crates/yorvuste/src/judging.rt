// A text that is too long for a bundle, the whole way: its pattern is read, its machines are built, and
// its strips are filed into a roll.
ghost use Rattle.std.specs.Prelude.{◌≡◌, ◌<◌, ◌≤◌, length, IfOk, MatchResult};
ghost use Rattle.bundle.specs.Outcome.{opened};
ghost use Rattle.yorvuste.specs.Filled.{FilledWith};
ghost use Rattle.yorvuste.specs.Judgements.{Judges, Numbers, Started, Told, numbers, room};
ghost use Rattle.fault.specs.declared.Refusal.TheVariants.{NoSuchSlot};
ghost use Rattle.folding.specs.Texts.{Bytes};
ghost use Rattle.law.specs.Whole.{OfPattern};
ghost use Rattle.machines.specs.Set.Starting.{StartsReached};
ghost use Rattle.notation.specs.Expressions.{Regex};
ghost use Rattle.notation.specs.Reading.{ReadAs};
ghost use Rattle.roll.specs.Lending.{StillLent, with};
ghost use Rattle.roll.specs.Refusals.{fault as roll_fault};
ghost use Rattle.roll.specs.Stands.{Stands};

use bundle::check::ROWS;
use fault::Fault;
use folding::fold::{Folding, Judging};
use folding::tally::{Tally, Tallying};
use law::{machine_of, set_machine_of, start_machine_of};
use machines::{MOVES, PlaceMachine, SETS, SetMachine, build_sets};
use pattern::Pattern;
use roll::feeding::{LONGEST, strip_of};
use roll::{LentMut, MOST_SLOTS, Roll};
use starts::build_starts;

const CELLS: usize = 2 * MOST_SLOTS;

// `refusal` is 0 where the text was judged, and then `verdict` says whether it follows the pattern,
// `bytes` and `lines` are its tally, and `place` is 0. Else it is the number of the refusal, whose place
// is `place`, and the other three are 0.
#[repr(C)]
#[derive(Clone, Copy)]
pub struct Judgement {
    pub refusal: u8,
    pub verdict: bool,
    pub bytes: u32,
    pub lines: u32,
    pub place: usize,
}

#[derive(Clone, Copy)]
pub(crate) struct Answers {
    pub(crate) verdict: bool,
    pub(crate) totals: Tally,
}

pub(crate) fn judgement_of(pattern: &[u8], text: &[u8]) -> Judgement
    ensures numbers { Numbers pattern.now text.now result }
{
    in_numbers(judge(pattern, text))
}

fn in_numbers(outcome: Result<Answers, Fault>) -> Judgement
    ensures value { result ≡ numbers outcome }
{
    match outcome {
        Ok(Answers { verdict, totals }) => Judgement {
            refusal: 0,
            verdict,
            bytes: totals.bytes,
            lines: totals.lines,
            place: 0,
        },
        Err(fault) => Judgement {
            refusal: fault.refusal.number(),
            verdict: false,
            bytes: 0,
            lines: 0,
            place: fault.place,
        },
    }
}

fn judge(pattern: &[u8], text: &[u8]) -> Result<Answers, Fault>
    ensures judges { Judges pattern.now text.now result }
{
    let mut record = Pattern::new();
    record.read(pattern)?;
    let place = machine_of::<PlaceMachine>(&record);
    let mut sets = [0; SETS];
    let mut moves = [0; MOVES];
    let count = build_sets(&place, &mut sets, &mut moves)?;
    let set = set_machine_of::<PlaceMachine>(&record, place, count, &sets, &moves);
    from_starts(&record, &set, text)
}

// From the set machine of the pattern on, with as many rows as `rollcheck` has, so that the same patterns
// are refused with the same place. The tables lie on the caller's stack, where 512 rows would take 240 KB
// more.
fn from_starts(pattern: &Pattern, set: &SetMachine, text: &[u8]) -> Result<Answers, Fault>
    requires of { OfPattern pattern.now set.now.place.tables }
    requires starts { StartsReached set.now.place.tables set.now.count set.now.moves.now }
    ensures started { (e : Regex) → ReadAs pattern.now e → Started text.now e result }
{
    let mut maps = [0; 64 * ROWS];
    let mut moves = [0; 256 * ROWS];
    let count = build_starts(set, &mut maps, &mut moves)?;
    let machine = start_machine_of::<SetMachine, PlaceMachine>(pattern, set, count, &maps, &moves);
    let mut lent = LentMut {
        machine: &machine,
        legs: &mut [machine.empty(); CELLS],
        tallies: &mut [Tallying.empty(); CELLS],
    };
    rolled(&mut lent, text)
}

fn rolled<M: Judging>(lent: &mut LentMut<M>, text: &[u8]) -> Result<Answers, Fault>
    requires legs { length lent.old.legs.now ≡ 256 }
    requires tallies { length lent.old.tallies.now ≡ 256 }
    ensures told { Told (M.Judging.means lent.old.machine.now) text.now result }
    ensures bytes { IfOk result (λ a. Bytes text.now) }
{
    let mut roll = Roll::new::<M, M>();
    roll.open(lent, MOST_SLOTS)?;
    file_all(&mut roll, lent, text)?;
    let lent = lent.shared();
    Ok(Answers {
        verdict: roll.verdict(&lent)?,
        totals: roll.totals(&lent)?,
    })
}

// Files the text from the first slot on, in strips that are as long as can be. A text for which there
// are too few slots is refused by the filing.
fn file_all<M: Judging>(roll: &mut Roll, lent: &mut LentMut<M>, text: &[u8]) -> Result<(), Fault>
    requires empty { Stands (M.Folding.leg lent.old.machine.now) (with roll.old lent.old) opened }
    ensures filed { MatchResult result
        (λ _. (length text.now ≤ room) × FilledWith M.Folding.leg lent.old text.now roll.new lent.new)
        (λ f. (room < length text.now) × (f ≡ roll_fault NoSuchSlot 128)) }
    ensures lent { StillLent lent.old lent.new }
{
    let mut rest = text;
    let mut slot = 0;
    while !rest.is_empty() {
        let (bytes, later) = rest.split_at(rest.len().min(LONGEST));
        let strip = strip_of(lent.machine, bytes)?;
        roll.file(lent, slot, strip)?;
        rest = later;
        slot += 1;
    }
    Ok(())
}
