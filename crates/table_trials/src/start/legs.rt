// Legs of long texts: the start machine's `extend`, which reads them in eight parts, beside steps byte by
// byte, and joined; and what the three machines say of them, beside what is known of the texts.
use crate::set::legs::by_steps;
use crate::set::set_machine;
use crate::standing;
use fault::Fault;
use folding::fold::{Folding, Judging};
use machines::set::build::{MOVES, SETS};
use machines::set::map::SetMap;
use machines::set::setno::SetNo;
use machines::{PlaceMachine, SetMachine, build};
use pattern::Pattern;
use starts::build::MOST_ROWS;
use starts::statemap::StateMap;
use starts::{Automaton, StartMachine, StartNo, build_starts};
use std::array;
use std::test::Fail;

const LONGEST: usize = 4100;

// A text of 512 bytes and more is read in parts. By 516 and 517 there is a length for each number that is
// meant in a case.
const LENGTHS: [usize; 21] = [
    0, 1, 7, 8, 9, 64, 504, 511, 512, 513, 516, 517, 519, 520, 521, 1023, 1024, 1025, 4095, 4096,
    4097,
];

// A pattern, and a text that repeats some bytes.
#[derive(Clone, Copy)]
struct Case<'a> {
    pattern: &'a str,
    repeated: &'a [u8],
    // How many bytes past the last whole repetition the beginnings of the text have that are meant.
    meant: &'a [usize],
    // Whether a ! in it loses the text.
    loses: bool,
}

impl Case<'_> {
    // The text, with a ! at `mark` if it is so long.
    fn text(&self, mark: usize) -> [u8; LONGEST] {
        array::from_fn(|i| {
            if i == mark {
                b'!'
            } else {
                self.repeated
                    .get(i % self.repeated.len().max(1))
                    .copied()
                    .unwrap_or(0)
            }
        })
    }

    fn means(&self, length: usize) -> bool {
        self.meant.contains(&(length % self.repeated.len().max(1)))
    }
}

// Whether the leg is that of the text in two parts, the second added to the first and the two joined.
fn in_two_parts(machine: &StartMachine<SetMachine>, leg: StartNo, text: &[u8], cut: usize) -> bool {
    let (front, back) = text.split_at(cut.min(text.len()));
    let first = machine.extend(&machine.empty(), front);
    let second = machine.extend(&machine.empty(), back);
    machine.extend(&first, back) == leg && machine.join(&first, &second) == leg
}

// Whether all the ways to read the text come to the leg.
fn in_parts(machine: &StartMachine<SetMachine>, leg: StartNo, text: &[u8]) -> bool {
    for cut in LENGTHS {
        if !in_two_parts(machine, leg, text, cut) {
            return false;
        }
    }
    machine.extend(&machine.empty(), text) == leg
}

// Whether the start's map sends each set where the set machine's leg does.
fn same_map(map: &StateMap, set: &SetMachine, leg: &SetMap) -> bool {
    for s in 0..set.states() {
        if map.to(s) != usize::from(leg.to(SetNo::nth(s))) {
            return false;
        }
    }
    true
}

// Whether the moves of both lead from set 0 to the same set, byte for byte.
fn same_moves(machine: &StartMachine<SetMachine>, set: &SetMachine, text: &[u8]) -> bool {
    let mut start = StartNo::identity();
    let mut number = SetNo::initial();
    for c in text {
        (start, number) = standing::onward(machine, set, start, number, *c);
        if machine.map(start).to(0) != usize::from(number) {
            return false;
        }
    }
    true
}

// The verdict on the texts of a leg, and whether they are lost.
fn judge<M: Judging>(machine: &M, leg: &M::Leg) -> (bool, bool) {
    (machine.accepts(leg), machine.lost(leg))
}

// Whether all agree on the beginnings of the text.
fn agree(
    place: &PlaceMachine,
    set: &SetMachine,
    machine: &StartMachine<SetMachine>,
    case: &Case,
    mark: usize,
) -> bool {
    let text = case.text(mark);
    let mut legs = (place.empty(), set.empty(), machine.empty());
    let mut done = 0;
    for length in LENGTHS {
        let beginning = &text[..length.min(LONGEST)];
        let (by_places, by_sets, by_starts) = legs;
        let more = beginning.get(done..).unwrap_or(&[]);
        let by_places = by_steps(place, by_places, more);
        let by_sets = by_steps(set, by_sets, more);
        let by_starts = by_steps(machine, by_starts, more);
        let lost = case.loses && mark < length;
        let said = (!lost && case.means(length), lost);
        let alike = judge(place, &by_places) == said
            && judge(set, &by_sets) == said
            && judge(machine, &by_starts) == said
            && same_map(&machine.map(by_starts), set, &by_sets)
            && in_parts(machine, by_starts, beginning);
        if !alike {
            return false;
        }
        legs = (by_places, by_sets, by_starts);
        done = length;
    }
    same_moves(machine, set, &text)
}

fn all_agree(case: &Case) -> Result<bool, Fault> {
    let mut read = Pattern::new();
    read.read(case.pattern.as_bytes())?;
    let place = build(&read);
    let mut sets = [0; SETS];
    let mut sets_moves = [0; MOVES];
    let set = set_machine(case.pattern, &mut sets, &mut sets_moves)?;
    let mut maps = [0; 64 * MOST_ROWS];
    let mut moves = [0; 256 * MOST_ROWS];
    let count = build_starts(&set, &mut maps, &mut moves)?;
    let machine = StartMachine::new(&set, count, &maps, &moves);
    // In the first part of some texts, in later parts and past the eight of others, and nowhere.
    for mark in [1, 300, 510, 512, 1000, 4000, LONGEST] {
        if !agree(&place, &set, &machine, case, mark) {
            return Ok(false);
        }
    }
    Ok(true)
}

const CASES: [Case<'static>; 6] = [
    Case {
        pattern: ".*",
        repeated: b"ab\n",
        meant: &[0, 1, 2],
        loses: false,
    },
    Case {
        pattern: "(abc)*",
        repeated: b"abc",
        meant: &[0],
        loses: true,
    },
    Case {
        pattern: "(a|b)*abb",
        repeated: b"aababbb",
        meant: &[6],
        loses: true,
    },
    // None of the marks stands for an a.
    Case {
        pattern: ".*a.{4}",
        repeated: b"abcdefg",
        meant: &[5],
        loses: false,
    },
    Case {
        pattern: "(.{7})*",
        repeated: b"abcdefg",
        meant: &[0],
        loses: false,
    },
    // More starts than a byte can number: from each of 21 places to each, and two.
    Case {
        pattern: "(abcdefghijklmnopqrstu)*",
        repeated: b"abcdefghijklmnopqrstu",
        meant: &[0],
        loses: true,
    },
];

#[test]
fn long_texts(rt: HostRuntime) -> Result<(), Fail> {
    for case in &CASES {
        assert!(rt; all_agree(case)?, "at {}", case.pattern);
    }
    Ok(())
}
