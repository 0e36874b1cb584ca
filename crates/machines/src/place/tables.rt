// The tables of a place machine, and those of an expression from those of its parts.
ghost use Rattle.std.specs.Prelude.{◌≡◌, slice_index};
ghost use Rattle.relations.specs.Masks.{Has, SetOf};
ghost use Rattle.machines.specs.Place.Operations.{followers as followers_of, TablesBy, LaterRow, Later, ThenRow, Then, Either, StarRow, Star, Optional};

use relations::masks::{has, later, only, places, single, union};
use relations::placeno::PlaceNo;
use std::array;

// State 0 comes before all places; state q from 1 on is place q, of which there are at most 63.
// Row q of `follow` is the set of places that come after q, row 0 those that start; row c of `takes`
// is the set of places that take byte c; `accepts` is the set of states that accept.
// Arrays of all rows that there can be, since a machine needs no memory but its own.
#[derive(Clone, Copy)]
pub struct Tables {
    pub follow: [u64; 64],
    pub takes: [u64; 256],
    pub accepts: u64,
}

impl Tables {
    // The places that come after the state.
    pub(crate) fn followers(&self, q: PlaceNo) -> u64
        ensures value { result ≡ followers_of self.now q }
    {
        self.follow[usize::from(q)]
    }

    // No place: only the empty text.
    pub(crate) fn nothing() -> Tables
        ensures members { TablesBy result (λ _ _. ⊥) (λ _ _. ⊥) (λ p. p ≡ 0) }
    {
        Tables {
            follow: [0; 64],
            takes: [0; 256],
            accepts: single(PlaceNo::initial()),
        }
    }

    // Place 1 alone, which takes the bytes whose row has it.
    pub(crate) fn place(takes: [u64; 256]) -> Tables
        ensures members { TablesBy result (λ q p. (q ≡ 0) × (p ≡ 1)) (λ c p. Has (slice_index takes c) p) (λ p. p ≡ 1) }
    {
        let place = single(PlaceNo::nth(1));
        let mut follow = [0; 64];
        follow[usize::from(PlaceNo::initial())] = place;
        Tables {
            follow,
            takes,
            accepts: place,
        }
    }

    fn later_row(&self, by: usize, q: PlaceNo) -> u64
        ensures members { SetOf result (LaterRow by self.now q) }
    {
        match q.earlier(by) {
            Some(from) => later(self.followers(from), by),
            None => 0,
        }
    }

    // The same places, each `by` numbers later.
    pub(crate) fn later(&self, by: usize) -> Tables
        ensures members { Later by self.now result }
    {
        let initial = PlaceNo::initial();
        Tables {
            follow: array::from_fn(|q| self.later_row(by, PlaceNo::nth(q))),
            takes: array::from_fn(|c| later(self.takes[c], by)),
            accepts: only(single(initial), has(self.accepts, initial)) | later(self.accepts, by),
        }
    }

    fn then_row(&self, second: &Tables, q: PlaceNo) -> u64
        ensures members { SetOf result (ThenRow self.now second.now q) }
    {
        let across = only(second.followers(PlaceNo::initial()), has(self.accepts, q));
        self.followers(q) | (across | only(second.followers(q), q != PlaceNo::initial()))
    }

    // This and then `second`, whose places come later.
    pub(crate) fn then(&self, second: &Tables) -> Tables
        ensures members { Then self.now second.now result }
    {
        let own = only(self.accepts, has(second.accepts, PlaceNo::initial()));
        Tables {
            follow: array::from_fn(|q| self.then_row(second, PlaceNo::nth(q))),
            takes: union(&self.takes, &second.takes),
            accepts: places(second.accepts) | own,
        }
    }

    // This or `other`, whose places come later.
    pub(crate) fn either(&self, other: &Tables) -> Tables
        ensures members { Either self.now other.now result }
    {
        Tables {
            follow: union(&self.follow, &other.follow),
            takes: union(&self.takes, &other.takes),
            accepts: self.accepts | other.accepts,
        }
    }

    fn star_row(&self, q: PlaceNo) -> u64
        ensures members { SetOf result (StarRow self.now q) }
    {
        self.followers(q) | only(self.followers(PlaceNo::initial()), has(self.accepts, q))
    }

    // This any number of times.
    pub(crate) fn star(&self) -> Tables
        ensures members { Star self.now result }
    {
        Tables {
            follow: array::from_fn(|q| self.star_row(PlaceNo::nth(q))),
            takes: self.takes,
            accepts: self.accepts | single(PlaceNo::initial()),
        }
    }

    // This or nothing.
    pub(crate) fn optional(&self) -> Tables
        ensures members { Optional self.now result }
    {
        Tables {
            follow: self.follow,
            takes: self.takes,
            accepts: self.accepts | single(PlaceNo::initial()),
        }
    }
}
