// A slot's record.
ghost use Rattle.std.specs.Prelude.{◌≡◌};
ghost use Rattle.roll.specs.Refusals.{is_held};
ghost use Rattle.roll.specs.declared.slot.Slot.TheVariants.{Held, Empty};

// Whether a strip stands in a slot. The strip's leg and tally are in the cells, so there is nothing
// for an Option to hold.
#[derive(Clone, Copy, PartialEq, Eq, Debug, Default)]
pub enum Slot {
    Held,
    #[default]
    Empty,
}

impl Slot {
    pub(crate) fn is_held(self) -> bool
        ensures value { result ≡ is_held self }
    {
        matches!(self, Slot::Held)
    }

    pub(crate) fn hold(&mut self)
        ensures after { self.new ≡ Held }
    {
        *self = Slot::Held;
    }

    pub(crate) fn clear(&mut self)
        ensures after { self.new ≡ Empty }
    {
        *self = Slot::Empty;
    }
}
