// Legs of texts that are longer than the other matcher takes: by the set machine's `extend`, which
// takes many bytes at once, beside steps byte by byte, and joined; and what the two machines say of them.
use crate::standing;
use fault::Fault;
use folding::fold::{Folding, Judging};
use machines::set::build::{MOVES, SETS, build_sets};
use machines::set::map::SetMap;
use machines::set::setno::SetNo;
use machines::{SetMachine, build};
use pattern::Pattern;
use std::array;
use std::test::Fail;

// `extend` takes 16 bytes first, and then as many as it took before.
const LENGTHS: [usize; 12] = [0, 1, 15, 16, 17, 31, 32, 33, 64, 65, 128, 300];

fn same(a: &SetMap, b: &SetMap) -> bool {
    for s in 0..SETS {
        let number = SetNo::nth(s);
        if a.to(number) != b.to(number) {
            return false;
        }
    }
    true
}

pub(crate) fn by_steps<M: Folding>(machine: &M, from: M::Leg, text: &[u8]) -> M::Leg {
    let mut at = from;
    for c in text {
        at = machine.step(&at, *c);
    }
    at
}

// Whether the leg is that of the text in two parts, the second added to the first and the two joined.
fn in_two_parts(machine: &SetMachine, leg: &SetMap, text: &[u8], cut: usize) -> bool {
    let (front, back) = text.split_at(cut.min(text.len()));
    let first = machine.extend(&machine.empty(), front);
    let second = machine.extend(&machine.empty(), back);
    same(&machine.extend(&first, back), leg) && same(&machine.join(&first, &second), leg)
}

// Whether all agree on the first bytes of the text, as many as each length says.
fn agree(pattern: &str, text: &[u8; 300]) -> Result<bool, Fault> {
    let mut read = Pattern::new();
    read.read(pattern.as_bytes())?;
    let place = build(&read);
    let mut sets = [0; SETS];
    let mut moves = [0; MOVES];
    let count = build_sets(&place, &mut sets, &mut moves)?;
    let set = SetMachine::new(place, count, &sets, &moves);
    for length in LENGTHS {
        let text = &text[..length.min(300)];
        let leg = by_steps(&set, set.empty(), text);
        for cut in LENGTHS {
            if !in_two_parts(&set, &leg, text, cut) {
                return Ok(false);
            }
        }
        let other = by_steps(&place, place.empty(), text);
        let verdicts = set.accepts(&leg) == place.accepts(&other);
        let losses = set.lost(&leg) == place.lost(&other);
        if !verdicts || !losses || !standing::alike(&sets, &leg, &other) {
            return Ok(false);
        }
    }
    Ok(true)
}

#[test]
fn long_texts(rt: HostRuntime) -> Result<(), Fail> {
    let texts = [
        [b'a'; 300],
        array::from_fn(|i| b"abc"[i % 3]),
        array::from_fn(|i| b"aababbb"[i % 7]),
    ];
    let patterns = [
        "",
        ".*",
        "(abc)*",
        ".*a.{4}",
        "(a|b)*abb",
        "(.{7})*",
        "a{32}a{30}",
    ];
    for pattern in patterns {
        for text in &texts {
            assert!(rt; agree(pattern, text)?, "at {pattern}");
        }
    }
    Ok(())
}
