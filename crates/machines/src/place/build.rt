// The place machine of a pattern that was read.
ghost use Rattle.machines.specs.Place.Built.{Built};
ghost use Rattle.machines.specs.Place.Laws.{PlaceLaws};

use crate::place::PlaceMachine;
use crate::place::fragment::Fragment;
use folding::fold::{Folding, Judging};
use pattern::Pattern;

// The laws are those of all place machines, and ask nothing of this one.
pub fn build(pattern: &Pattern) -> PlaceMachine
    ensures built { Built pattern.now result.tables (⟦<PlaceMachine as Judging>⟧.means result) (⟦<PlaceMachine as Folding>⟧.leg result) }
    ensures laws { PlaceLaws }
{
    // The pattern was read, so it has at most 63 places.
    let whole = pattern.assemble::<Fragment>().part.unwrap();
    PlaceMachine::new(whole)
}
