// The tables of the start machine over an automaton.
ghost use Rattle.std.specs.Prelude.{◌≡◌, length, replicate, MatchResult};
ghost use Rattle.numbering.specs.Laws.{NumberingLaws};
ghost use Rattle.starts.specs.Building.{StartsGranted, StartsRefused};
ghost use Rattle.starts.specs.Maps.{identity, then_byte};

use crate::automaton::Automaton;
use crate::statemap::StateMap;
use fault::{Fault, Layer, Refusal};
use numbering::search;
use numbering::space::Space;

// As many rows as the number of a start can name.
pub const MOST_ROWS: usize = 512;

// The maps that texts make of the states of an automaton, from the one that leaves each where it is.
#[derive(Drop)]
struct Maps<'a, A> {
    automaton: &'a A,
}

impl<A: Automaton> Space<StateMap> for Maps<'_, A> {
    ghost first = { λ m. identity (A.count m.automaton.now) };

    ghost next = { λ m map c. then_byte (A.count m.automaton.now) (A.moved m.automaton.now) map c };

    fn first(&self) -> StateMap {
        StateMap::identity(self.automaton.states())
    }

    fn next(&self, map: &StateMap, c: u8) -> StateMap {
        map.step(self.automaton, c)
    }

    // In one sweep over the columns of the two bytes, which ends where they differ.
    fn alike(&self, b: u8, c: u8) -> bool {
        for s in 0..64 {
            let from = A::state(s);
            if A::index(self.automaton.next(from, b)) != A::index(self.automaton.next(from, c)) {
                return false;
            }
        }
        true
    }
}

// How many starts there are. The length of the maps tells how many rows there are, which are 1 to 512.
// The tables are left all zero where there are more starts than rows, and untouched where they have
// another length.
pub fn build_starts<A: Automaton>(
    automaton: &A,
    maps: &mut [u8],
    moves: &mut [u16],
) -> Result<usize, Fault>
    ensures outcome { MatchResult result (λ n. StartsGranted (A.count automaton.now) (A.moved automaton.now) n maps.new moves.new) (λ f. StartsRefused (A.count automaton.now) (A.moved automaton.now) maps.old moves.old f maps.new moves.new) }
    ensures laws { NumberingLaws (identity (A.count automaton.now)) (then_byte (A.count automaton.now) (A.moved automaton.now)) }
{
    let rows = maps.len() / 64;
    if maps.len() != 64 * rows || rows == 0 || rows > MOST_ROWS {
        return Err(Layer::Build.fault(Refusal::TableLength, 0));
    }
    if moves.len() != 256 * rows {
        return Err(Layer::Build.fault(Refusal::TableLength, 1));
    }
    blank(maps, moves);
    match search::number::<StateMap, _, _>(&Maps { automaton }, maps, moves) {
        Some(count) => Ok(count),
        None => {
            blank(maps, moves);
            Err(Layer::Build.fault(Refusal::TooManyStarts, rows))
        }
    }
}

fn blank(maps: &mut [u8], moves: &mut [u16])
    ensures maps { maps.new ≡ replicate (length maps.old) 0 }
    ensures moves { moves.new ≡ replicate (length moves.old) 0 }
{
    maps.fill(0);
    moves.fill(0);
}
