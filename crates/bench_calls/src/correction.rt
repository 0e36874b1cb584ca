// A roll that is filled and then corrected.
ghost use Rattle.std.specs.Prelude.{◌≡◌, length, map, take, replicate, None, Some, IfOk, MatchResult, slice_set};
ghost use Rattle.bench_calls.specs.Answers.{Corrected, in_strips};
ghost use Rattle.bench_calls.specs.Rolls.{Corrects, Puts};
ghost use Rattle.folding.specs.Texts.{Bytes, together};
ghost use Rattle.notation.specs.Meaning.{Matches};
ghost use Rattle.roll.specs.Lending.{StillLent, with};
ghost use Rattle.roll.specs.Plain.{Plain};
ghost use Rattle.roll.specs.Stands.{Stands};

use crate::question::Question;
use fault::Fault;
use folding::fold::{Folding, Judging};
use folding::tally::Tallying;
use machines::SetMachine;
use roll::feeding::strip_of;
use roll::{LentMut, MOST_SLOTS, Roll};
use starts::StartMachine;

const CELLS: usize = 2 * MOST_SLOTS;

const STRIP: usize = 8000;

// A text is filed in strips of 8,000 bytes. Then a strip for one of the slots is fed anew and filed, and
// the verdict asked: once, and so many times more.
#[derive(Clone, Copy)]
pub(crate) struct Correction<'a> {
    pub(crate) text: &'a [u8],
    pub(crate) slot: usize,
    pub(crate) strip: &'a [u8],
    pub(crate) more: u32,
}

impl<'a> Question for Correction<'a> {
    ghost comes = { λ q e r. Corrected (Matches e) q.text.now q.slot q.strip.now r };

    fn put<'m>(&self, machine: &StartMachine<'m, SetMachine<'m>>) -> Result<bool, Fault> {
        let mut lent = LentMut {
            machine,
            legs: &mut [machine.empty(); CELLS],
            tallies: &mut [Tallying.empty(); CELLS],
        };
        corrected(self, &mut lent)
    }
}

fn corrected<M: Judging>(asked: &Correction, lent: &mut LentMut<M>) -> Result<bool, Fault>
    requires legs { length lent.old.legs.now ≡ 256 }
    requires tallies { length lent.old.tallies.now ≡ 256 }
    ensures corrected { Corrected (M.Judging.means lent.old.machine.now) asked.now.text.now asked.now.slot asked.now.strip.now result }
    ensures bytes { IfOk result (λ _. Bytes (together (slice_set (in_strips 128 asked.now.text.now) asked.now.slot (take 8000 asked.now.strip.now)))) }
{
    let mut roll = Roll::new::<M, M>();
    roll.open(lent, MOST_SLOTS)?;
    fill(&mut roll, lent, asked.text)?;
    let mut verdict = correct(&mut roll, lent, asked.slot, asked.strip)?;
    for _ in 0..asked.more {
        verdict = correct(&mut roll, lent, asked.slot, asked.strip)?;
    }
    Ok(verdict)
}

fn fill<M: Judging>(roll: &mut Roll, lent: &mut LentMut<M>, text: &[u8]) -> Result<(), Fault>
    requires empty { Stands (M.Folding.leg lent.old.machine.now) (with roll.old lent.old) (replicate 128 None) }
    ensures filled { MatchResult result (λ _. Stands (M.Folding.leg lent.old.machine.now) (with roll.new lent.new) (map Some (in_strips 128 text.now))) (λ f. ⊥) }
    ensures lent { StillLent lent.old lent.new }
{
    let mut rest = text;
    for slot in 0..MOST_SLOTS {
        file(roll, lent, slot, rest)?;
        rest = &rest[STRIP.min(rest.len())..];
    }
    Ok(())
}

fn correct<M: Judging>(
    roll: &mut Roll,
    lent: &mut LentMut<M>,
    slot: usize,
    strip: &[u8],
) -> Result<bool, Fault>
    ensures corrects { (p : Plain) → Stands (M.Folding.leg lent.old.machine.now) (with roll.old lent.old) p
        → Corrects (M.Folding.leg lent.old.machine.now) (M.Judging.means lent.old.machine.now) p slot (take 8000 strip.now) result (with roll.new lent.new) }
    ensures lent { StillLent lent.old lent.new }
{
    file(roll, lent, slot, strip)?;
    roll.verdict(&lent.shared())
}

// The head of the bytes, as long as a strip is here.
fn file<M: Judging>(
    roll: &mut Roll,
    lent: &mut LentMut<M>,
    slot: usize,
    bytes: &[u8],
) -> Result<(), Fault>
    ensures puts { (p : Plain) → Stands (M.Folding.leg lent.old.machine.now) (with roll.old lent.old) p
        → Puts (M.Folding.leg lent.old.machine.now) p slot (take 8000 bytes.now) result (with roll.new lent.new) }
    ensures lent { StillLent lent.old lent.new }
{
    let strip = strip_of(lent.machine, &bytes[..STRIP.min(bytes.len())])?;
    roll.file(lent, slot, strip)?;
    Ok(())
}
