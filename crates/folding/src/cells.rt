// The keeping of cells, one text for every folding: a tree of legs over the texts in N slots, laid
// out in a lent slice of 2N legs (a segment tree in heap order). Each call takes the folding and the
// slice: an update and a fold over whatever is lent is the form that all tables are kept in.
ghost use Rattle.std.specs.Prelude.{◌≡◌, ℕ, ◌+◌, ◌*◌, ◌/◌, ◌^◌, ◌<◌, ◌≤◌, List, [], length, MatchResult, slice_index_or};
ghost use Rattle.fault.specs.declared.Layer.TheVariants.{Roll};
ghost use Rattle.fault.specs.declared.Refusal.TheVariants.{NoSuchSlot};
ghost use Rattle.folding.specs.Cells.{under, Tree, Above};
ghost use Rattle.folding.specs.Keeping.{half, slots as slots_of, Clears, Puts, Spares, Gathers, Ready, Slotted};
ghost use Rattle.folding.specs.Legs.{Folds, Associative};
ghost use Rattle.folding.specs.Losing.{FirstLost};
ghost use Rattle.folding.specs.Texts.{AllBytes};

use crate::fold::{Folding, Judging};
use fault::{Fault, Layer, Refusal};

// Makes the cells those of empty texts.
pub fn clear<F: Folding>(folding: &F, cells: &mut [F::Leg])
    ensures cells { Clears (F.Folding.leg folding.now) cells.old cells.new }
    ensures layout { (slots : List (List ℕ)) → Tree slots (under slots) }
{
    let empty = folding.empty();
    cells.fill_with(|| empty);
}

// Puts `leg` into a slot and joins again the cells above it, one join to a level. Refused where
// there is no such slot, and then nothing changes.
pub fn put<F: Folding>(
    folding: &F,
    cells: &mut [F::Leg],
    slot: usize,
    leg: F::Leg,
) -> Result<(), Fault>
    ensures cases { MatchResult result (λ _. slot < half cells.old) (λ f. (half cells.old ≤ slot) × (f ≡ record { refusal = NoSuchSlot; layer = Roll; place = slot }) × (cells.new ≡ cells.old)) }
    ensures cells { Puts (F.Folding.leg folding.now) cells.old slot leg cells.new }
    ensures others { Spares cells.old slot cells.new }
    ensures own { (d : F.Leg) → slot < half cells.old → slice_index_or cells.new (half cells.old + slot) d ≡ leg }
{
    let n = cells.len() / 2;
    if slot >= n {
        return Err(Layer::Roll.fault(Refusal::NoSuchSlot, slot));
    }
    cells[n + slot] = leg;
    climb(folding, cells, n + slot);
    Ok(())
}

// Joins again each cell above `from`, the lowest first.
fn climb<F: Folding>(folding: &F, cells: &mut [F::Leg], from: usize)
    requires within { from < 2 * half cells.old }
    ensures joined { (slots : List (List ℕ)) → AllBytes slots → half cells.old ≡ length slots → Ready (F.Folding.leg folding.now) slots (from / 2) cells.old → Ready (F.Folding.leg folding.now) slots 0 cells.new }
    ensures others { (k : ℕ) (d : F.Leg) → (Above k (from / 2) → ⊥) → slice_index_or cells.new k d ≡ slice_index_or cells.old k d }
{
    let mut i = from / 2;
    // No range goes from a cell to the one above it, and `successors` would say it no plainer.
    while i > 0 {
        let left = cells[2 * i];
        let right = cells[2 * i + 1];
        cells[i] = folding.join(&left, &right);
        i /= 2;
    }
}

// The cells of the slots, in slot order.
fn leaves<L>(cells: &[L]) -> &[L]
    ensures value { result.now ≡ slots_of cells.now }
{
    let n = cells.len() / 2;
    &cells[n..2 * n]
}

// From the leg of a text and those of the texts after it, the leg of all of them joined, by a fold
// from the left. The tree groups the same joins otherwise: that both come to one leg is what
// `associative` says.
pub fn fold<F: Folding>(folding: &F, from: &F::Leg, legs: &[F::Leg]) -> F::Leg
    ensures folds { Folds (F.Folding.leg folding.now) from.now legs.now result }
    ensures associative { Associative (F.Folding.leg folding.now) }
{
    let mut all = *from;
    for leg in legs {
        all = folding.join(&all, leg);
    }
    all
}

// The leg of the texts joined in slot order, by one look, at the cell that stands above all others.
pub fn whole<F: Folding>(folding: &F, cells: &[F::Leg]) -> F::Leg
    ensures cell { result ≡ slice_index_or cells.now 1 (F.Folding.leg folding.now []) }
    ensures value { (k : ℕ) → half cells.now ≡ 2 ^ k → Gathers (F.Folding.leg folding.now) cells.now result }
    ensures none { length cells.now ≤ 1 → result ≡ F.Folding.leg folding.now [] }
{
    cells.get(1).copied().unwrap_or_else(|| folding.empty())
}

// The lowest slot after which the text cannot be completed any more. A lost text stays lost, so it is
// found by halving: in all no more joins than slots, a question to each halving, and one at the end.
pub fn first_lost<M: Judging>(machine: &M, cells: &[M::Leg]) -> Option<usize>
    ensures value { (slots : List (List ℕ)) → AllBytes slots → Slotted (M.Folding.leg machine.now) cells.now slots → FirstLost (M.Judging.means machine.now) slots result }
{
    let legs = leaves(cells);
    let mut so_far = machine.empty();
    let mut from = 0;
    let mut to = legs.len();
    while to - from > 1 {
        let middle = from + (to - from) / 2;
        let next = fold(machine, &so_far, &legs[from..middle]);
        if machine.lost(&next) {
            to = middle;
        } else {
            so_far = next;
            from = middle;
        }
    }
    let all = fold(machine, &so_far, &legs[from..to]);
    machine.lost(&all).then_some(from)
}
