// Where a text leads, by two machines beside each other. The numbers of the machines' states are three types:
// none is taken for another.
use machines::SetMachine;
use machines::set::map::SetMap;
use machines::set::setno::SetNo;
use relations::placeno::PlaceNo;
use relations::relation::Relation;
use starts::{StartMachine, StartNo};

// Whether the set that the one leads to has exactly the states that the other leads to.
pub(crate) fn alike(sets: &[u64; 64], by_sets: &SetMap, by_places: &Relation) -> bool {
    let number = by_sets.to(SetNo::initial());
    sets[usize::from(number)] == by_places.row(PlaceNo::initial())
}

// Where one more byte leads, from a start and from a set.
pub(crate) fn onward(
    machine: &StartMachine<SetMachine>,
    set: &SetMachine,
    start: StartNo,
    number: SetNo,
    c: u8,
) -> (StartNo, SetNo) {
    (machine.next(start, c), set.next(number, c))
}
