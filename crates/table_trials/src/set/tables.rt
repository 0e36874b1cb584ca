// The set machine's tables, beside tables that are worked out by hand: the sets by their states, in the
// order in which they are first met, by number and byte, and where each leads.
use fault::Fault;
use machines::build;
use machines::set::build::{MOVES, SETS, build_sets};
use pattern::Pattern;
use std::test::Fail;

// Where a set leads at the bytes from the first to the second.
pub(crate) type Move = (usize, u8, u8, u8);

// A pattern, its sets by their states, and where each leads.
type Case = (&'static str, &'static [&'static [usize]], &'static [Move]);

fn sets_of(sets: &[&[usize]]) -> [u64; SETS] {
    let mut table = [0; SETS];
    for (mask, states) in table.iter_mut().zip(sets) {
        for state in *states {
            *mask |= 1 << (state % 64);
        }
    }
    table
}

// A later move stands over an earlier one; past those that are given all is 0.
pub(crate) fn moves_of(moves: &[Move]) -> [u8; MOVES] {
    let mut table = [0; MOVES];
    for (from, low, high, to) in moves {
        for c in *low..=*high {
            table[256 * (from % 64) + usize::from(c)] = *to;
        }
    }
    table
}

// Whether these are the tables of the pattern, all of them. They are lent full of other numbers.
fn stand(pattern: &str, sets: &[&[usize]], moves: &[Move]) -> Result<bool, Fault> {
    let mut read = Pattern::new();
    read.read(pattern.as_bytes())?;
    let mut built_sets = [u64::MAX; SETS];
    let mut built_moves = [u8::MAX; MOVES];
    let count = build_sets(&build(&read), &mut built_sets, &mut built_moves)?;
    Ok(count == sets.len() && built_sets == sets_of(sets) && built_moves == moves_of(moves))
}

const FEW_PLACES: [Case; 8] = [
    ("", &[&[0], &[]], &[(0, 0, 255, 1), (1, 0, 255, 1)]),
    (
        "a",
        &[&[0], &[], &[1]],
        &[
            (0, 0, 255, 1),
            (0, b'a', b'a', 2),
            (1, 0, 255, 1),
            (2, 0, 255, 1),
        ],
    ),
    // The empty set comes last here, and is not reached below.
    (
        ".",
        &[&[0], &[1], &[]],
        &[(0, 0, 255, 1), (1, 0, 255, 2), (2, 0, 255, 2)],
    ),
    (".*", &[&[0], &[1]], &[(0, 0, 255, 1), (1, 0, 255, 1)]),
    (
        "a*",
        &[&[0], &[], &[1]],
        &[
            (0, 0, 255, 1),
            (0, b'a', b'a', 2),
            (1, 0, 255, 1),
            (2, 0, 255, 1),
            (2, b'a', b'a', 2),
        ],
    ),
    (
        "ab",
        &[&[0], &[], &[1], &[2]],
        &[
            (0, 0, 255, 1),
            (0, b'a', b'a', 2),
            (1, 0, 255, 1),
            (2, 0, 255, 1),
            (2, b'b', b'b', 3),
            (3, 0, 255, 1),
        ],
    ),
    (
        "a|b",
        &[&[0], &[], &[1], &[2]],
        &[
            (0, 0, 255, 1),
            (0, b'a', b'a', 2),
            (0, b'b', b'b', 3),
            (1, 0, 255, 1),
            (2, 0, 255, 1),
            (3, 0, 255, 1),
        ],
    ),
    // By the bytes, and not by the places.
    (
        "b|a",
        &[&[0], &[], &[2], &[1]],
        &[
            (0, 0, 255, 1),
            (0, b'a', b'a', 2),
            (0, b'b', b'b', 3),
            (1, 0, 255, 1),
            (2, 0, 255, 1),
            (3, 0, 255, 1),
        ],
    ),
];

#[test]
fn of_few_places(rt: HostRuntime) -> Result<(), Fail> {
    for (pattern, sets, moves) in FEW_PLACES {
        assert!(rt; stand(pattern, sets, moves)?, "at {pattern}");
    }
    Ok(())
}

const MORE_PLACES: [Case; 8] = [
    (
        ".a",
        &[&[0], &[1], &[], &[2]],
        &[
            (0, 0, 255, 1),
            (1, 0, 255, 2),
            (1, b'a', b'a', 3),
            (2, 0, 255, 2),
            (3, 0, 255, 2),
        ],
    ),
    (
        ".*a",
        &[&[0], &[1], &[1, 2]],
        &[
            (0, 0, 255, 1),
            (0, b'a', b'a', 2),
            (1, 0, 255, 1),
            (1, b'a', b'a', 2),
            (2, 0, 255, 1),
            (2, b'a', b'a', 2),
        ],
    ),
    (
        "[a-c]b",
        &[&[0], &[], &[1], &[2]],
        &[
            (0, 0, 255, 1),
            (0, b'a', b'c', 2),
            (1, 0, 255, 1),
            (2, 0, 255, 1),
            (2, b'b', b'b', 3),
            (3, 0, 255, 1),
        ],
    ),
    (
        "a?b",
        &[&[0], &[], &[1], &[2]],
        &[
            (0, 0, 255, 1),
            (0, b'a', b'a', 2),
            (0, b'b', b'b', 3),
            (1, 0, 255, 1),
            (2, 0, 255, 1),
            (2, b'b', b'b', 3),
            (3, 0, 255, 1),
        ],
    ),
    (
        "(abc)*",
        &[&[0], &[], &[1], &[2], &[3]],
        &[
            (0, 0, 255, 1),
            (0, b'a', b'a', 2),
            (1, 0, 255, 1),
            (2, 0, 255, 1),
            (2, b'b', b'b', 3),
            (3, 0, 255, 1),
            (3, b'c', b'c', 4),
            (4, 0, 255, 1),
            (4, b'a', b'a', 2),
        ],
    ),
    (
        "(a|ab)c",
        &[&[0], &[], &[1, 2], &[3], &[4]],
        &[
            (0, 0, 255, 1),
            (0, b'a', b'a', 2),
            (1, 0, 255, 1),
            (2, 0, 255, 1),
            (2, b'b', b'b', 3),
            (2, b'c', b'c', 4),
            (3, 0, 255, 1),
            (3, b'c', b'c', 4),
            (4, 0, 255, 1),
        ],
    ),
    (
        "a{2,3}",
        &[&[0], &[], &[1], &[2], &[3]],
        &[
            (0, 0, 255, 1),
            (0, b'a', b'a', 2),
            (1, 0, 255, 1),
            (2, 0, 255, 1),
            (2, b'a', b'a', 3),
            (3, 0, 255, 1),
            (3, b'a', b'a', 4),
            (4, 0, 255, 1),
        ],
    ),
    // Sets 4 and 5 are first met from sets 2 and 4.
    (
        "(a|b)*abb",
        &[&[0], &[], &[1, 3], &[2], &[2, 4], &[2, 5]],
        &[
            (0, 0, 255, 1),
            (0, b'a', b'a', 2),
            (0, b'b', b'b', 3),
            (1, 0, 255, 1),
            (2, 0, 255, 1),
            (2, b'a', b'a', 2),
            (2, b'b', b'b', 4),
            (3, 0, 255, 1),
            (3, b'a', b'a', 2),
            (3, b'b', b'b', 3),
            (4, 0, 255, 1),
            (4, b'a', b'a', 2),
            (4, b'b', b'b', 5),
            (5, 0, 255, 1),
            (5, b'a', b'a', 2),
            (5, b'b', b'b', 3),
        ],
    ),
];

#[test]
fn of_more_places(rt: HostRuntime) -> Result<(), Fail> {
    for (pattern, sets, moves) in MORE_PLACES {
        assert!(rt; stand(pattern, sets, moves)?, "at {pattern}");
    }
    Ok(())
}
