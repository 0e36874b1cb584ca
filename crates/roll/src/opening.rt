// Making a roll and opening it.
ghost use Rattle.std.specs.Prelude.{◌≡◌, ◌≤◌, [], replicate};
ghost use Rattle.roll.specs.Law.{Law};
ghost use Rattle.roll.specs.Lending.{OpensWith, StillLent};
ghost use Rattle.roll.specs.Runs.{Run};
ghost use Rattle.roll.specs.Sizes.{allowed as allowed_size};
ghost use Rattle.roll.specs.Stands.{state};
ghost use Rattle.roll.specs.Steps.{AsMade};
ghost use Rattle.roll.specs.declared.slot.Slot.TheVariants.{Empty};

use crate::lent::LentMut;
use crate::roll::{MOST_SLOTS, Roll};
use crate::slot::Slot;
use arrayvec::ArrayVec;
use fault::{Fault, Layer, Refusal};
use folding::cells;
use folding::fold::Judging;
use folding::tally::Tallying;

// Whether a roll may be opened with n slots.
fn allowed(n: usize) -> bool
    ensures value { result ≡ allowed_size n }
{
    matches!(n, 1 | 2 | 4 | 8 | 16 | 32 | 64 | 128)
}

fn empty_slots(n: usize) -> ArrayVec<Slot, MOST_SLOTS>
    requires few { n ≤ 128 }
    ensures value { result.items ≡ replicate n Empty }
{
    ArrayVec::try_from(&[Slot::Empty; MOST_SLOTS][..n]).unwrap()
}

impl Roll {
    // A roll with no slots, which holds the empty text. `law` is what the product is for: it speaks
    // of every run of a roll under a machine of kind M, and of any two runs, the other under a
    // machine of kind O (which may be the same kind).
    pub fn new<M: Judging, O: Judging>() -> Roll
        ensures made { AsMade result }
        ensures begins { (m : M)
            → Run (M.Folding.leg m) (M.Judging.means m) (state result [] []) [] }
        ensures law { (m : M) (o : O)
            → Law (M.Folding.leg m) (M.Judging.means m) (O.Folding.leg o) (O.Judging.means o) }
    {
        Roll {
            slots: ArrayVec::new(),
        }
    }

    // The roll has n empty slots from here on; what it held is gone.
    pub fn open<M: Judging>(&mut self, lent: &mut LentMut<M>, n: usize) -> Result<(), Fault>
        ensures opens { OpensWith M.Folding.leg self.old lent.old n result self.new lent.new }
        ensures lent { StillLent lent.old lent.new }
    {
        if !allowed(n) {
            return Err(Layer::Roll.fault(Refusal::SlotCount, n));
        }
        lent.shared().fit(n)?;
        let slots = empty_slots(n);
        cells::clear(lent.machine, lent.legs);
        cells::clear(&Tallying, lent.tallies);
        self.slots = slots;
        Ok(())
    }
}
