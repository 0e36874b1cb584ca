// Sets of states as masks: bit q is 1 if state q is in the set.
ghost use Rattle.std.specs.Prelude.{◌≡◌, ℕ, ◌<◌, ◌≤◌, ◌≢◌, ◌^◌, ◌⊎◌, ◌↔◌, Decides, slice_index};
ghost use Rattle.relations.specs.Masks.{Has, SetOf, Only, LaterIn, Lowest, image as image_of, IsImage};

use crate::placeno::PlaceNo;
use std::array;

// The union of the rows of the members of `set`, one turn to a member.
pub fn image(rows: &[u64; 64], set: u64) -> u64
    ensures value { result ≡ image_of rows.now set }
    ensures members { IsImage rows.now set result }
{
    let mut all = 0;
    let mut rest = set;
    while rest != 0 {
        let q = lowest(rest);
        all |= rows[usize::from(q)];
        rest ^= single(q);
    }
    all
}

// The first state of a set that is not empty.
fn lowest(set: u64) -> PlaceNo
    requires some { set ≢ 0 }
    ensures value { Lowest set result }
{
    PlaceNo::nth(set.trailing_zeros() as usize)
}

// The set of this state alone.
pub fn single(q: PlaceNo) -> u64
    ensures value { result ≡ 2 ^ q }
    ensures members { SetOf result (λ p. p ≡ q) }
{
    1 << usize::from(q)
}

// Whether the state is in the set.
pub fn has(set: u64, q: PlaceNo) -> bool
    ensures cases { Decides result (Has set q) }
{
    (set >> usize::from(q)) & 1 == 1
}

// The set, or the empty one.
pub fn only(set: u64, when: bool) -> u64
    ensures members { SetOf result (Only when set) }
{
    if when { set } else { 0 }
}

// The set without state 0, which is no place.
pub fn places(set: u64) -> u64
    ensures members { SetOf result (λ p. (1 ≤ p) × Has set p) }
{
    (set >> 1) << 1
}

// The places of the set, each `by` numbers later; those past the last number drop out.
pub fn later(set: u64, by: usize) -> u64
    ensures members { SetOf result (LaterIn by set) }
{
    if by < 64 { ((set >> 1) << by) << 1 } else { 0 }
}

// The union of two tables of sets, row by row.
pub fn union<const N: usize>(a: &[u64; N], b: &[u64; N]) -> [u64; N]
    ensures members { (k p : ℕ) → k < N → Has (slice_index result k) p ↔ (Has (slice_index a.now k) p ⊎ Has (slice_index b.now k) p) }
{
    // As slices: a proof does not learn what a closure gives that reads arrays of any length N.
    let (a, b) = (&a[..], &b[..]);
    array::from_fn(|k| a[k] | b[k])
}
