// The tables of the set machine over a place machine.
ghost use Rattle.std.specs.Prelude.{◌≡◌, ℕ, ◌↔◌, true, length, replicate, slice_index, Decides, MatchResult};
ghost use Rattle.machines.specs.Place.Runs.{stepped};
ghost use Rattle.machines.specs.Set.Building.{MoreMasks, SetsGranted, SetsRefused};
ghost use Rattle.machines.specs.Place.Tables.{TablesOf};
ghost use Rattle.machines.specs.Reached.{MoreSets};
ghost use Rattle.machines.specs.Set.Tables.{initial};
ghost use Rattle.machines.specs.Soundness.{Sane};
ghost use Rattle.notation.specs.Expressions.{Regex};
ghost use Rattle.numbering.specs.Laws.{NumberingLaws};

use crate::place::PlaceMachine;
use fault::{Fault, Layer, Refusal};
use numbering::search;
use numbering::space::Space;
use relations::masks::single;
use relations::placeno::PlaceNo;

// As many sets as a table holds, and a move from each at each byte.
pub const SETS: usize = 64;

pub const MOVES: usize = 256 * SETS;

// The sets of states that texts lead to, from the one that has state 0 alone.
impl Space<u64> for PlaceMachine {
    ghost first = { λ m. initial };

    ghost next = { λ m set c. stepped m.tables set c };

    fn first(&self) -> u64 {
        single(PlaceNo::initial())
    }

    fn next(&self, set: &u64, c: u8) -> u64 {
        self.stepped(*set, c)
    }

    // Bytes that the same places take.
    fn alike(&self, b: u8, c: u8) -> bool
        ensures same { result ≡ true → (set : ℕ) → stepped self.now.tables set b ≡ stepped self.now.tables set c }
        ensures cases { Decides result (slice_index self.now.tables.takes b ≡ slice_index self.now.tables.takes c) }
    {
        self.takes(b) == self.takes(c)
    }
}

// How many sets there are. The tables are left all zero where they have no room for the sets, and
// untouched where they have another length.
pub fn build_sets(place: &PlaceMachine, sets: &mut [u64], moves: &mut [u8]) -> Result<usize, Fault>
    ensures outcome { MatchResult result (λ n. SetsGranted place.now.tables n sets.new moves.new) (λ f. SetsRefused place.now.tables sets.old moves.old f sets.new moves.new) }
    ensures reached { (e : Regex) → Sane e → TablesOf e place.now.tables → MoreMasks place.now.tables ↔ MoreSets 64 e }
    ensures laws { NumberingLaws initial (stepped place.now.tables) }
{
    if sets.len() != SETS {
        return Err(Layer::Build.fault(Refusal::TableLength, 0));
    }
    if moves.len() != MOVES {
        return Err(Layer::Build.fault(Refusal::TableLength, 1));
    }
    blank(sets, moves);
    match search::number(place, sets, moves) {
        Some(count) => Ok(count),
        None => {
            blank(sets, moves);
            Err(Layer::Build.fault(Refusal::TooManySets, 0))
        }
    }
}

fn blank(sets: &mut [u64], moves: &mut [u8])
    ensures sets { sets.new ≡ replicate (length sets.old) 0 }
    ensures moves { moves.new ≡ replicate (length moves.old) 0 }
{
    sets.fill(0);
    moves.fill(0);
}
