// The place machine (the position automaton, Glushkov's): a judging machine whose leg of a text is
// the relation between states that the text makes.
ghost use Rattle.std.specs.Prelude.{◌≡◌, ◌==◌, not, bit_and, slice_index};
ghost use Rattle.machines.specs.Place.Runs.{leg as leg_of, stepped};
ghost use Rattle.machines.specs.Place.Tables.{Made, Meant};
ghost use Rattle.machines.specs.Place.Shown.Machine.{made_inhabited};

// Its tables, what stands for a byte, a class or a part of a pattern, and the build of the whole.
pub mod build;
mod fragment;
mod letters;
mod tables;

use crate::place::fragment::Numbered;
use crate::place::tables::Tables;
use folding::fold::{Folding, Judging};
use relations::masks;
use relations::placeno::PlaceNo;
use relations::relation::Relation;
use std::array;

#[derive(Clone, Copy)]
pub struct PlaceMachine {
    tables: Tables,
    ghost made: { Made tables },
}

impl PlaceMachine {
    pub(crate) fn new(whole: Numbered) -> PlaceMachine
        ensures tables { result.tables ≡ whole.tables }
    {
        PlaceMachine {
            tables: whole.tables,
        }
    }

    // Whether one of these states accepts.
    pub(crate) fn accepting(&self, states: u64) -> bool
        ensures value { result ≡ not (bit_and states self.now.tables.accepts == 0) }
    {
        states & self.tables.accepts != 0
    }

    // The places that take the byte.
    pub(crate) fn takes(&self, c: u8) -> u64
        ensures value { result ≡ slice_index self.now.tables.takes c }
    {
        self.tables.takes[usize::from(c)]
    }

    // Where the byte leads from these states.
    pub(crate) fn stepped(&self, states: u64, c: u8) -> u64
        ensures value { result ≡ stepped self.now.tables states c }
    {
        masks::image(&self.tables.follow, states) & self.takes(c)
    }
}

impl Folding for PlaceMachine {
    type Leg = Relation;

    ghost leg = { λ m w. leg_of m.tables w };

    fn empty(&self) -> Relation {
        Relation::identity()
    }

    fn step(&self, at: &Relation, c: u8) -> Relation {
        Relation {
            // Not by `Relation::then`: the byte's mask would then need a pass of its own, which is no plainer.
            rows: array::from_fn(|q| self.stepped(at.row(PlaceNo::nth(q)), c)),
        }
    }

    fn join(&self, first: &Relation, second: &Relation) -> Relation {
        first.then(second)
    }
}

impl Judging for PlaceMachine {
    ghost means = { λ m w. Meant m.tables w };

    ghost inhabited = { λ m. made_inhabited m.tables m.made };

    fn accepts(&self, at: &Relation) -> bool {
        self.accepting(at.row(PlaceNo::initial()))
    }

    fn lost(&self, at: &Relation) -> bool {
        at.row(PlaceNo::initial()) == 0
    }
}
