// The start machine's tables, beside tables that are worked out by hand: the starts by where they send
// each set (`set/tables.rt` has the sets of some), in the order in which they are first met, by number and
// byte, and where each leads.
use crate::set::tables::{Move, moves_of};
use crate::start::starts_of;
use fault::Fault;
use std::test::Fail;

// A pattern, its starts by where they send each set, and where each leads.
type Case = (&'static str, &'static [&'static [u8]], &'static [Move]);

// Past those that are given, starts or sets, all is 0.
fn maps_of(starts: &[&[u8]]) -> [u8; 64 * 64] {
    let mut table = [0; 64 * 64];
    for (r, start) in starts.iter().enumerate() {
        for (s, to) in start.iter().enumerate() {
            table[64 * (r % 64) + s % 64] = *to;
        }
    }
    table
}

// Whether these are the tables of the pattern, all of them, in 64 rows. They are lent full of other numbers.
fn stand(pattern: &str, starts: &[&[u8]], moves: &[Move]) -> Result<bool, Fault> {
    let mut maps = [u8::MAX; 64 * 64];
    let mut built = [u16::MAX; 256 * 64];
    let count = starts_of(pattern, &mut maps, &mut built)?;
    let moves = moves_of(moves).map(u16::from);
    Ok(count == starts.len() && maps == maps_of(starts) && built == moves)
}

const FEW_PLACES: [Case; 6] = [
    ("", &[&[0, 1], &[1, 1]], &[(0, 0, 255, 1), (1, 0, 255, 1)]),
    (".*", &[&[0, 1], &[1, 1]], &[(0, 0, 255, 1), (1, 0, 255, 1)]),
    (
        "a",
        &[&[0, 1, 2], &[1, 1, 1], &[2, 1, 1]],
        &[
            (0, 0, 255, 1),
            (0, b'a', b'a', 2),
            (1, 0, 255, 1),
            (2, 0, 255, 1),
        ],
    ),
    // The empty set is set 2 here, and so the map to it alone comes last.
    (
        ".",
        &[&[0, 1, 2], &[1, 2, 2], &[2, 2, 2]],
        &[(0, 0, 255, 1), (1, 0, 255, 2), (2, 0, 255, 2)],
    ),
    (
        "a*",
        &[&[0, 1, 2], &[1, 1, 1], &[2, 1, 2]],
        &[
            (0, 0, 255, 1),
            (0, b'a', b'a', 2),
            (1, 0, 255, 1),
            (2, 0, 255, 1),
            (2, b'a', b'a', 2),
        ],
    ),
    (
        "ab",
        &[
            &[0, 1, 2, 3],
            &[1, 1, 1, 1],
            &[2, 1, 1, 1],
            &[1, 1, 3, 1],
            &[3, 1, 1, 1],
        ],
        &[
            (0, 0, 255, 1),
            (0, b'a', b'a', 2),
            (0, b'b', b'b', 3),
            (1, 0, 255, 1),
            (2, 0, 255, 1),
            (2, b'b', b'b', 4),
            (3, 0, 255, 1),
            (4, 0, 255, 1),
        ],
    ),
];

#[test]
fn of_few_places(rt: HostRuntime) -> Result<(), Fail> {
    for (pattern, starts, moves) in FEW_PLACES {
        assert!(rt; stand(pattern, starts, moves)?, "at {pattern}");
    }
    Ok(())
}

const MORE_PLACES: [Case; 3] = [
    // Set 2 is the empty one. The start by a byte that is no `a` and one by `a` lead on alike.
    (
        ".a",
        &[
            &[0, 1, 2, 3],
            &[1, 2, 2, 2],
            &[1, 3, 2, 2],
            &[2, 2, 2, 2],
            &[3, 2, 2, 2],
        ],
        &[
            (0, 0, 255, 1),
            (0, b'a', b'a', 2),
            (1, 0, 255, 3),
            (1, b'a', b'a', 4),
            (2, 0, 255, 3),
            (2, b'a', b'a', 4),
            (3, 0, 255, 3),
            (4, 0, 255, 3),
        ],
    ),
    (
        "(abc)*",
        &[
            &[0, 1, 2, 3, 4],
            &[1, 1, 1, 1, 1],
            &[2, 1, 1, 1, 2],
            &[1, 1, 3, 1, 1],
            &[1, 1, 1, 4, 1],
            &[3, 1, 1, 1, 3],
            &[1, 1, 4, 1, 1],
            &[1, 1, 1, 2, 1],
            &[4, 1, 1, 1, 4],
            &[1, 1, 2, 1, 1],
            &[1, 1, 1, 3, 1],
        ],
        &[
            (0, 0, 255, 1),
            (0, b'a', b'a', 2),
            (0, b'b', b'b', 3),
            (0, b'c', b'c', 4),
            (1, 0, 255, 1),
            (2, 0, 255, 1),
            (2, b'b', b'b', 5),
            (3, 0, 255, 1),
            (3, b'c', b'c', 6),
            (4, 0, 255, 1),
            (4, b'a', b'a', 7),
            (5, 0, 255, 1),
            (5, b'c', b'c', 8),
            (6, 0, 255, 1),
            (6, b'a', b'a', 9),
            (7, 0, 255, 1),
            (7, b'b', b'b', 10),
            (8, 0, 255, 1),
            (8, b'a', b'a', 2),
            (9, 0, 255, 1),
            (9, b'b', b'b', 3),
            (10, 0, 255, 1),
            (10, b'c', b'c', 4),
        ],
    ),
    // By texts of `a` and `b`: what the last of them are, from `a` on, up to three.
    (
        "(a|b)*abb",
        &[
            &[0, 1, 2, 3, 4, 5],
            &[1, 1, 1, 1, 1, 1],
            &[2, 1, 2, 2, 2, 2],
            &[3, 1, 4, 3, 5, 3],
            &[4, 1, 4, 4, 4, 4],
            &[3, 1, 5, 3, 3, 3],
            &[5, 1, 5, 5, 5, 5],
            &[3, 1, 3, 3, 3, 3],
        ],
        &[
            (0, 0, 255, 1),
            (0, b'a', b'a', 2),
            (0, b'b', b'b', 3),
            (1, 0, 255, 1),
            (2, 0, 255, 1),
            (2, b'a', b'a', 2),
            (2, b'b', b'b', 4),
            (3, 0, 255, 1),
            (3, b'a', b'a', 2),
            (3, b'b', b'b', 5),
            (4, 0, 255, 1),
            (4, b'a', b'a', 2),
            (4, b'b', b'b', 6),
            (5, 0, 255, 1),
            (5, b'a', b'a', 2),
            (5, b'b', b'b', 7),
            (6, 0, 255, 1),
            (6, b'a', b'a', 2),
            (6, b'b', b'b', 7),
            (7, 0, 255, 1),
            (7, b'a', b'a', 2),
            (7, b'b', b'b', 7),
        ],
    ),
];

#[test]
fn of_more_places(rt: HostRuntime) -> Result<(), Fail> {
    for (pattern, starts, moves) in MORE_PLACES {
        assert!(rt; stand(pattern, starts, moves)?, "at {pattern}");
    }
    Ok(())
}
