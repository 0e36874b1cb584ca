// Files the strips of a bundle into a roll of 128 slots, and puts the questions to it.
ghost use Rattle.roll.specs.Lending.{StillLent};
ghost use Rattle.bundle.specs.Handed.{piece, left, Short};
ghost use Rattle.bundle.specs.Lending.{FiledOneWith, FiledAllWith, ReportedWith, RanWith};

use crate::report::Report;
use crate::walk::{Strip, Strips};
use fault::Fault;
use folding::fold::Judging;
use roll::{LentMut, MOST_SLOTS, Roll, feeding};

// The roll and what is lent with its calls stay two values: a roll outlives what is lent.
fn file_one<M: Judging>(roll: &mut Roll, lent: &mut LentMut<M>, strip: Strip) -> Result<(), Fault>
    requires short { Short strip }
    ensures filed { FiledOneWith M.Folding.leg M.Judging.means
        roll.old lent.old (piece strip.entry) result roll.new lent.new }
    ensures lent { StillLent lent.old lent.new }
{
    let open = feeding::strip_of(lent.machine, strip.text)?;
    roll.file(lent, usize::from(strip.slot), open)?;
    Ok(())
}

// Files the strips in their order, a later one for a slot in place of an earlier one. The first
// refusal ends it.
fn file_all<M: Judging>(roll: &mut Roll, lent: &mut LentMut<M>, strips: Strips) -> Result<(), Fault>
    ensures filed { FiledAllWith M.Folding.leg M.Judging.means
        roll.old lent.old (left strips.entry) result roll.new lent.new }
    ensures lent { StillLent lent.old lent.new }
{
    for strip in strips {
        file_one(roll, lent, strip)?;
    }
    Ok(())
}

// What the strips come to under a machine, with cells for 128 slots: the first refusal ends it. Its
// calls are a run, of which the law of rolls speaks.
pub fn report<M: Judging>(lent: &mut LentMut<M>, strips: Strips) -> Result<Report, Fault>
    ensures reported { ReportedWith M.Judging.means lent.old (left strips.entry) result }
    ensures ran { RanWith M.Folding.leg M.Judging.means
        lent.old (left strips.entry) lent.new result }
    ensures lent { StillLent lent.old lent.new }
{
    let mut roll = Roll::new::<M, M>();
    roll.open(lent, MOST_SLOTS)?;
    file_all(&mut roll, lent, strips)?;
    let lent = lent.shared();
    Ok(Report {
        verdict: roll.verdict(&lent)?,
        totals: roll.totals(&lent)?,
        culprit: roll.culprit(&lent)?,
    })
}
