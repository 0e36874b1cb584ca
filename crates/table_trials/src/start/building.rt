// The build of the start machine's tables: how many starts a pattern has, and what is refused. The counts
// are worked out from the patterns, by the maps of sets that texts make.
use crate::start::starts_of;
use fault::{Fault, Layer, Refusal};
use starts::build::MOST_ROWS;
use std::alloc::{AllocError, Global};
use std::test::Fail;

#[derive(Clone, Copy, PartialEq, Eq, Debug)]
struct Built {
    said: Result<usize, Fault>,
    blank: bool,
}

// What the build says with so many rows, and whether it leaves nothing but 0 in them. The tables are lent
// full of other numbers.
fn with_rows(heap: Global, pattern: &str, rows: usize) -> Result<Built, AllocError> {
    let rows = rows.min(MOST_ROWS);
    let mut maps = vec![in heap; u8::MAX; 64 * rows]?;
    let mut moves = vec![in heap; u16::MAX; 256 * rows]?;
    let said = starts_of(pattern, &mut maps, &mut moves);
    let blank = maps.iter().all(|cell| *cell == 0) && moves.iter().all(|cell| *cell == 0);
    Ok(Built { said, blank })
}

fn too_many(rows: usize) -> Built {
    Built {
        said: Err(Layer::Build.fault(Refusal::TooManyStarts, rows)),
        blank: true,
    }
}

// As many rows as starts are enough, and one row fewer is not.
#[test]
fn counts_the_starts(rt: HostRuntime) -> Result<(), Fail> {
    let counts = [
        // The map of the empty text, and that of all others.
        ("", 2),
        // The same.
        (".*", 2),
        // These, and one from each of the three places to each.
        ("(abc)*", 11),
        // The texts of up to four bytes, each of them `a` or not, and the last five bytes of the others.
        (".*a.{4}", 63),
        // The first two, and one for each run of its letters, of which there are 31 * 32 / 2.
        ("abcdefghijklmnopqrstuvwxyz01234", 498),
    ];
    for (pattern, count) in counts {
        for rows in [count, MOST_ROWS] {
            assert_eq!(rt;
                with_rows(rt.alloc(), pattern, rows)?,
                Built {
                    said: Ok(count),
                    blank: false
                },
                "at {pattern} and {rows}"
            );
        }
        let fewer = count - 1;
        assert_eq!(rt;
            with_rows(rt.alloc(), pattern, fewer)?,
            too_many(fewer),
            "at {pattern}"
        );
    }
    Ok(())
}

// No text leads back to the start, so no pattern has one start alone.
#[test]
fn refuses_one_row(rt: HostRuntime) -> Result<(), Fail> {
    for pattern in ["", "a", ".*", "(abc)*", ".*a.{4}"] {
        assert_eq!(rt;
            with_rows(rt.alloc(), pattern, 1)?,
            too_many(1),
            "at {pattern}"
        );
    }
    Ok(())
}

// 32 letters have 528 runs.
#[test]
fn refuses_more_starts(rt: HostRuntime) -> Result<(), Fail> {
    assert_eq!(rt;
        with_rows(rt.alloc(), "abcdefghijklmnopqrstuvwxyz012345", MOST_ROWS)?,
        too_many(MOST_ROWS)
    );
    Ok(())
}

// Whether tables of these lengths are refused at this place, and left as they are.
fn refuses_lengths(
    heap: Global,
    pattern: &str,
    long: usize,
    rows: usize,
    place: usize,
) -> Result<bool, AllocError> {
    let mut maps = vec![in heap; 5; long]?;
    let mut moves = vec![in heap; 6; rows]?;
    let said = starts_of(pattern, &mut maps, &mut moves);
    Ok(
        said == Err(Layer::Build.fault(Refusal::TableLength, place))
            && maps.iter().all(|cell| *cell == 5)
            && moves.iter().all(|cell| *cell == 6),
    )
}

// By a pattern with two starts, and by one with eleven, which is more than some of these have rows.
#[test]
fn refuses_other_lengths(rt: HostRuntime) -> Result<(), Fail> {
    let cases = [
        // No rows, and no whole rows.
        (0, 0, 0),
        (0, 256, 0),
        (63, 255, 0),
        (63, 256, 0),
        (65, 256, 0),
        (193, 768, 0),
        (193, 769, 0),
        (705, 2816, 0),
        (32769, 131072, 0),
        // A row too many.
        (32832, 131328, 0),
        (32832, 131072, 0),
        // Fewer and more moves than there are rows of maps.
        (64, 0, 1),
        (64, 255, 1),
        (64, 257, 1),
        (192, 767, 1),
        (192, 769, 1),
        (704, 2560, 1),
        (704, 2815, 1),
        (704, 2817, 1),
        (32768, 131071, 1),
        (32768, 131073, 1),
    ];
    for pattern in [".*", "(abc)*"] {
        for (long, rows, place) in cases {
            assert!(rt;
                refuses_lengths(rt.alloc(), pattern, long, rows, place)?,
                "at {pattern}, {long} and {rows}"
            );
        }
    }
    Ok(())
}
