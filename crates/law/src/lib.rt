// Where patterns, machines and rolls meet: the machines of a pattern, and the whole law with each.
#![tactic(auto)]

ghost use Rattle.law.specs.Whole.{Every, MeansPattern, OfPattern, Whole};
ghost use Rattle.notation.specs.Reading.{Readable};
ghost use Rattle.roll.specs.Law.{Law};
ghost use Rattle.std.specs.Prelude.{◌≡◌};
ghost use Rattle.machines.specs.Set.Starting.{StartsReached};
ghost use Rattle.machines.specs.Set.Tables.{SetTables};
ghost use Rattle.starts.specs.Starts.{StartTables};

use folding::fold::{Folding, Judging};
use machines::{PlaceMachine, SetMachine};
use pattern::Pattern;
use starts::{Automaton, StartMachine};

// The place machine of a pattern that was read. `whole` is what the library is for: it speaks of this
// machine, of every run of a roll under it, and of any run of another roll, under a machine of kind O
// (which may be the same kind).
pub fn machine_of<O: Judging>(pattern: &Pattern) -> PlaceMachine
    ensures of { OfPattern pattern.now result.tables }
    ensures whole { (o : O)
        → Whole pattern.now (⟦<PlaceMachine as Folding>⟧.leg result) (⟦<PlaceMachine as Judging>⟧.means result)
        (O.Folding.leg o) (O.Judging.means o) }
{
    machines::build(pattern)
}

// The set machine of the same pattern, over the tables that a granted build left.
pub fn set_machine_of<'a, O: Judging>(
    pattern: &Pattern,
    place: PlaceMachine,
    count: usize,
    sets: &'a [u64],
    moves: &'a [u8],
) -> SetMachine<'a>
    requires of { OfPattern pattern.now place.tables }
    requires tables { SetTables place.tables count sets.now moves.now }
    ensures over { (result.place ≡ place) × (result.count ≡ count) × (result.sets.now ≡ sets.now) × (result.moves.now ≡ moves.now) }
    ensures of { OfPattern pattern.now result.place.tables }
    ensures starts { StartsReached result.place.tables result.count result.moves.now }
    ensures whole { (o : O)
        → Whole pattern.now (⟦<SetMachine<'a> as Folding>⟧.leg result) (⟦<SetMachine<'a> as Judging>⟧.means result)
        (O.Folding.leg o) (O.Judging.means o) }
{
    SetMachine::new(place, count, sets, moves)
}

// The start machine of the same pattern, over the tables that a granted build left. Its contract has the
// whole in one place: `every` says of all three kinds of machine what `whole` says of this one, that it
// means what its pattern means, and `law` holds of the rolls under machines of any two kinds M and O.
pub fn start_machine_of<'a, M: Judging, O: Judging>(
    pattern: &Pattern,
    set: &'a SetMachine<'a>,
    count: usize,
    maps: &'a [u8],
    moves: &'a [u16],
) -> StartMachine<'a, SetMachine<'a>>
    requires of { OfPattern pattern.now set.now.place.tables }
    requires tables { StartTables (⟦<SetMachine<'a> as Automaton>⟧.count set.now) (⟦<SetMachine<'a> as Automaton>⟧.moved set.now) count maps.now moves.now }
    ensures over { (result.automaton.now ≡ set.now) × (result.count ≡ count) × (result.maps.now ≡ maps.now) × (result.moves.now ≡ moves.now) }
    ensures read { Readable pattern.now }
    ensures means { MeansPattern pattern.now (⟦<StartMachine<'a, SetMachine<'a>> as Judging>⟧.means result) }
    ensures every { Every (λ m. m.automaton.now) (⟦<PlaceMachine as Judging>⟧.means) (⟦<SetMachine<'a> as Judging>⟧.means) (⟦<StartMachine<'a, SetMachine<'a>> as Judging>⟧.means) }
    ensures law { (m : M) (o : O) → Law (M.Folding.leg m) (M.Judging.means m) (O.Folding.leg o) (O.Judging.means o) }
    ensures whole { (o : O)
        → Whole pattern.now (⟦<StartMachine<'a, SetMachine<'a>> as Folding>⟧.leg result) (⟦<StartMachine<'a, SetMachine<'a>> as Judging>⟧.means result)
        (O.Folding.leg o) (O.Judging.means o) }
{
    StartMachine::new(set, count, maps, moves)
}
