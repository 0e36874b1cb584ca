// The build of the set machine's tables: how many sets a pattern has, and what is refused. The counts
// are worked out from the patterns, by the sets of places that texts lead to.
use fault::{Fault, Layer, Refusal};
use machines::build;
use machines::set::build::{MOVES, SETS, build_sets};
use pattern::Pattern;
use std::test::Fail;

fn sets_of(pattern: &str, sets: &mut [u64], moves: &mut [u8]) -> Result<usize, Fault> {
    let mut read = Pattern::new();
    read.read(pattern.as_bytes())?;
    build_sets(&build(&read), sets, moves)
}

#[test]
fn counts_the_sets(rt: HostRuntime) {
    let mut sets = [u64::MAX; SETS];
    let mut moves = [u8::MAX; MOVES];
    let counts = [
        // The start, and the empty set.
        ("", 2),
        // These, and one for each of the three places.
        ("(abc)*", 5),
        // The start, and with the first place any of the other five.
        (".*a.{4}", 33),
        // The start, one for each of 31 places, and the empty set.
        ("a{31}", 33),
        // The same of 62 places: as many as there is room for.
        ("a{32}a{30}", 64),
    ];
    for (pattern, count) in counts {
        assert_eq!(rt;
            sets_of(pattern, &mut sets, &mut moves),
            Ok(count),
            "at {pattern}"
        );
    }
}

// One set more than there is room for. The tables are lent full of other numbers.
#[test]
fn refuses_more_sets(rt: HostRuntime) {
    for pattern in [".*a.{5}", "a{32}a{31}"] {
        let mut sets = [u64::MAX; SETS];
        let mut moves = [u8::MAX; MOVES];
        assert_eq!(rt;
            sets_of(pattern, &mut sets, &mut moves),
            Err(Layer::Build.fault(Refusal::TooManySets, 0)),
            "at {pattern}"
        );
        assert!(rt; sets == [0; SETS], "the sets of {pattern}");
        assert!(rt; moves == [0; MOVES], "the moves of {pattern}");
    }
}

// Whether tables of these lengths are refused at this place, and left as they are.
fn refuses_lengths(pattern: &str, long: usize, rows: usize, place: usize) -> bool {
    let mut sets = [5; 65];
    let mut moves = [6; 16385];
    let said = sets_of(
        pattern,
        &mut sets[..long.min(65)],
        &mut moves[..rows.min(16385)],
    );
    said == Err(Layer::Build.fault(Refusal::TableLength, place))
        && sets == [5; 65]
        && moves == [6; 16385]
}

// By a pattern with few sets, and by one with more than there is room for.
#[test]
fn refuses_other_lengths(rt: HostRuntime) {
    for pattern in [".*", ".*a.{5}"] {
        for rows in [0, 16383, 16384, 16385] {
            for long in [0, 63, 65] {
                assert!(rt;
                    refuses_lengths(pattern, long, rows, 0),
                    "at {long} and {rows}"
                );
            }
        }
        for rows in [0, 16383, 16385] {
            assert!(rt; refuses_lengths(pattern, 64, rows, 1), "at 64 and {rows}");
        }
    }
}
