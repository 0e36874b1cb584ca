// Filing strips and withdrawing them.
ghost use Rattle.std.specs.Prelude.{◌≡◌, length};
ghost use Rattle.std.specs.Result.{result_err};
ghost use Rattle.roll.specs.Lending.{FilesWith, WithdrawsWith, StillLent};
ghost use Rattle.roll.specs.Refusals.{room};

use crate::lent::{Lent, LentMut};
use crate::roll::Roll;
use crate::strip::{Returned, Strip};
use fault::{Fault, Layer, Refusal};
use folding::cells;
use folding::fold::{Folding, Judging};
use folding::tally::{Tally, Tallying};

impl Roll {
    // A slot's content becomes this strip, whose tally is answered. A refusal hands the strip back.
    pub fn file<M: Judging>(
        &mut self,
        lent: &mut LentMut<M>,
        slot: usize,
        strip: Strip<M::Leg>,
    ) -> Result<Tally, Returned<M::Leg>>
        ensures files { FilesWith M.Folding.leg M.Judging.means
            self.old lent.old slot strip result self.new lent.new }
        ensures lent { StillLent lent.old lent.new }
    {
        if let Err(fault) = self.slot_at(&lent.shared(), slot) {
            return Err(Returned { fault, strip });
        }
        let Strip { leg, tally, fed: _ } = strip;
        cells::put(lent.machine, lent.legs, slot, leg).unwrap();
        cells::put(&Tallying, lent.tallies, slot, tally).unwrap();
        self.slots.as_mut_slice()[slot].hold();
        Ok(tally)
    }

    // Empties a held slot.
    pub fn withdraw<M: Judging>(&mut self, lent: &mut LentMut<M>, slot: usize) -> Result<(), Fault>
        ensures withdraws { WithdrawsWith M.Folding.leg M.Judging.means
            self.old lent.old slot result self.new lent.new }
        ensures lent { StillLent lent.old lent.new }
    {
        self.slot_at(&lent.shared(), slot)?;
        let mark = self.slots[slot];
        if !mark.is_held() {
            return Err(Layer::Roll.fault(Refusal::SlotEmpty, slot));
        }
        let empty = lent.machine.empty();
        cells::put(lent.machine, lent.legs, slot, empty).unwrap();
        cells::put(&Tallying, lent.tallies, slot, Tallying.empty()).unwrap();
        self.slots.as_mut_slice()[slot].clear();
        Ok(())
    }

    // Refuses cells that are not this roll's, and then a slot that there is not.
    fn slot_at<M: Judging>(&self, lent: &Lent<M>, slot: usize) -> Result<(), Fault>
        ensures value { result_err result
            ≡ room (length self.now.slots.items) slot
            (length lent.now.legs.now) (length lent.now.tallies.now) }
    {
        lent.fit(self.slots.len())?;
        if slot >= self.slots.len() {
            return Err(Layer::Roll.fault(Refusal::NoSuchSlot, slot));
        }
        Ok(())
    }
}
