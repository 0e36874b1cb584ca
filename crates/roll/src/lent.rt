// What is lent with a call of a roll.
ghost use Rattle.std.specs.Prelude.{◌≡◌, ◌≤◌, length};
ghost use Rattle.std.specs.Result.{result_err};
ghost use Rattle.roll.specs.Refusals.{tables};

use fault::{Fault, Layer, Refusal};
use folding::fold::Judging;
use folding::tally::Tally;

// The machine, and the cells of the slots' texts: 2N legs and 2N tallies, where the roll has N slots.
// They are two tables and not one of pairs, since each is kept by itself and refused for its own length.
#[derive_where(Clone, Copy)]
pub struct Lent<'a, M: Judging> {
    pub machine: &'a M,
    pub legs: &'a [M::Leg],
    pub tallies: &'a [Tally],
}

impl<M: Judging> Lent<'_, M> {
    // Refuses cells that are not those of n slots.
    pub(crate) fn fit(&self, n: usize) -> Result<(), Fault>
        requires few { n ≤ 128 }
        ensures value { result_err result ≡ tables n (length self.now.legs.now) (length self.now.tallies.now) }
    {
        if self.legs.len() != 2 * n {
            return Err(Layer::Roll.fault(Refusal::TableLength, 0));
        }
        if self.tallies.len() != 2 * n {
            return Err(Layer::Roll.fault(Refusal::TableLength, 1));
        }
        Ok(())
    }
}

// The same for a call that writes the cells. It is a type of its own, since who holds the cells only
// to read them has questions too.
#[derive(Drop)]
pub struct LentMut<'m, 'c, M: Judging> {
    pub machine: &'m M,
    pub legs: &'c mut [M::Leg],
    pub tallies: &'c mut [Tally],
}

impl<M: Judging> LentMut<'_, '_, M> {
    // What is lent, for a call that only reads it.
    pub fn shared(&self) -> Lent<'_, M>
        ensures machine { result.machine.now ≡ self.now.machine.now }
        ensures legs { result.legs.now ≡ self.now.legs.now }
        ensures tallies { result.tallies.now ≡ self.now.tallies.now }
    {
        Lent {
            machine: self.machine,
            legs: self.legs,
            tallies: self.tallies,
        }
    }
}
