// The record of a roll.
ghost use Rattle.std.specs.Prelude.{◌≡◌, true, length};
ghost use Rattle.roll.specs.Sizes.{sized};

use crate::slot::Slot;
use arrayvec::ArrayVec;

// As many slots as a roll can have.
pub const MOST_SLOTS: usize = 128;

// A text in strips, of which only the marks of the slots are kept here: what is kept of the texts
// is lent with each call (`Lent`). A roll as made has no slots.
#[derive(Drop)]
pub struct Roll {
    pub(crate) slots: ArrayVec<Slot, MOST_SLOTS>,
    ghost few: { sized (length slots.items) ≡ true },
}
