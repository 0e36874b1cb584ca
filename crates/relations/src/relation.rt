// Relations between the states of a machine: what a text does to every state at once.
ghost use Rattle.std.specs.Prelude.{◌≡◌};
ghost use Rattle.relations.specs.Masks.{image};
ghost use Rattle.relations.specs.Relations.{composed, identity as identity_relation, row as row_of, Composes, Associative};

use crate::masks;
use crate::placeno::PlaceNo;
use std::array;

// Row q is the set of states that q leads to; all 64 rows, as in the machine's tables.
#[derive(Clone, Copy)]
pub struct Relation {
    pub rows: [u64; 64],
}

impl Relation {
    // Each state leads to itself.
    pub fn identity() -> Relation
        ensures value { result ≡ identity_relation }
    {
        Relation {
            rows: array::from_fn(|q| masks::single(PlaceNo::nth(q))),
        }
    }

    // The states that `of` leads to.
    pub fn row(&self, of: PlaceNo) -> u64
        ensures value { result ≡ row_of self.now of }
    {
        self.rows[usize::from(of)]
    }

    fn then_row(&self, second: &Relation, q: PlaceNo) -> u64
        ensures value { result ≡ image second.now.rows (row_of self.now q) }
    {
        masks::image(&second.rows, self.row(q))
    }

    // First this one, then `second`.
    pub fn then(&self, second: &Relation) -> Relation
        ensures value { result ≡ composed self.now second.now }
        ensures members { Composes self.now second.now result }
        ensures associative { Associative }
    {
        Relation {
            rows: array::from_fn(|q| self.then_row(second, PlaceNo::nth(q))),
        }
    }
}
