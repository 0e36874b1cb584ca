// The questions that a roll answers.
ghost use Rattle.roll.specs.Calls.{tallied, judged, named};
ghost use Rattle.roll.specs.Lending.{AsksWith};
ghost use Rattle.roll.specs.Refusals.{verdict, totals, culprit};
ghost use Rattle.roll.specs.Steps.{heard};

use crate::lent::Lent;
use crate::roll::Roll;
use fault::Fault;
use folding::cells;
use folding::fold::Judging;
use folding::tally::{Tally, Tallying};

impl Roll {
    // Whether the machine means the joined text.
    pub fn verdict<M: Judging>(&self, lent: &Lent<M>) -> Result<bool, Fault>
        ensures does { AsksWith M.Folding.leg M.Judging.means
            self.now lent.now verdict (heard judged result) }
    {
        lent.fit(self.slots.len())?;
        Ok(lent.machine.accepts(&cells::whole(lent.machine, lent.legs)))
    }

    // The tally of the joined text.
    pub fn totals<M: Judging>(&self, lent: &Lent<M>) -> Result<Tally, Fault>
        ensures does { AsksWith M.Folding.leg M.Judging.means
            self.now lent.now totals (heard tallied result) }
    {
        lent.fit(self.slots.len())?;
        Ok(cells::whole(&Tallying, lent.tallies))
    }

    // The lowest slot after which the text cannot be completed any more.
    pub fn culprit<M: Judging>(&self, lent: &Lent<M>) -> Result<Option<usize>, Fault>
        ensures does { AsksWith M.Folding.leg M.Judging.means
            self.now lent.now culprit (heard named result) }
    {
        lent.fit(self.slots.len())?;
        Ok(cells::first_lost(lent.machine, lent.legs))
    }
}
