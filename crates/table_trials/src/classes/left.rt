// Complements: the bytes that their members leave, and where one is refused since it leaves none. It can be
// continued as long as some way to go on leaves a byte.
use crate::classes::{Range, takes};
use fault::{Layer, Refusal};
use pattern::Pattern;
use std::alloc::{AllocError, Global};
use std::test::Fail;

const LEFT: [(&[u8], &[Range]); 30] = [
    (b"[\x00-\xff]", &[(0, 255)]),
    (b"[\x80-\xff]", &[(128, 255)]),
    (b"[\n]", &[(10, 10)]),
    (b"[^\n]", &[(0, 9), (11, 255)]),
    (b"[^\x80-\xff]", &[(0, 127)]),
    (b"[^\xff-\xff]", &[(0, 254)]),
    (b"[^[:alpha:]\x00]", &[(1, 64), (91, 96), (123, 255)]),
    // One byte is left.
    (b"[^\x00-\xfe]", &[(255, 255)]),
    (b"[^\x01-\xff]", &[(0, 0)]),
    (b"[^\x00-\x04\x06-\xff]", &[(5, 5)]),
    (b"[^\x00-,.-\xff]", &[(b'-', b'-')]),
    (b"[^\x00-Z\\\\-\xff]", &[(b'[', b'[')]),
    (b"[^\x00-\\[\\]-\xff]", &[(b'\\', b'\\')]),
    (b"[^\x00-\\\\\\^-\xff]", &[(b']', b']')]),
    (b"[^\x00-\\]_-\xff]", &[(b'^', b'^')]),
    (b"[^\x00-,\\-.-Z\\[-\\]\\^_-\xfe]", &[(255, 255)]),
    (b"[^[:graph:][:cntrl:]\x80-\xff]", &[(32, 32)]),
    // And it is still left behind a member that takes none of what is left.
    (b"[^\x00-\x04\x06-\xff[:alpha:]]", &[(5, 5)]),
    (b"[^\x00-\x04\x06-\xff\x06-\\.]", &[(5, 5)]),
    (b"[^\x00-\x04\x06-\xff\x00-\x04]", &[(5, 5)]),
    (b"[^\x00-z|-\xffa-z]", &[(b'{', b'{')]),
    (b"[^\x00-{}-\xffa-\\{]", &[(b'|', b'|')]),
    (b"[^\x00-|~-\xffa-\\|]", &[(b'}', b'}')]),
    (b"[^\x00-}\x7f-\xffa-\\}]", &[(b'~', b'~')]),
    (b"[^\x00-,.-\xff+-\\+]", &[(b'-', b'-')]),
    // Several are.
    (b"[^\x00-,\\-.-Z\\]\\^_-\xff]", &[(b'[', b'\\')]),
    (b"[^[:cntrl:][:print:]]", &[(128, 255)]),
    (
        b"[^[:cntrl:]\x80-\xff[:punct:][:space:][:digit:][:upper:]]",
        &[(b'a', b'z')],
    ),
    (b"[^\x00-/:-\xff[:alpha:][:punct:]]", &[(b'0', b'9')]),
    (b"[^\x00-/:-\xff0-8]", &[(b'9', b'9')]),
];

#[test]
fn what_is_left(rt: HostRuntime) -> Result<(), Fail> {
    for (pattern, ranges) in LEFT {
        assert!(rt; takes(pattern, ranges, false)?, "at {pattern:?}");
    }
    Ok(())
}

// A beginning that can be continued, and what stands behind it: from its first byte on nothing helps.
type Cut = (&'static [u8], &'static [u8]);

// Nothing is left in the end.
const NOTHING_LEFT: [Cut; 14] = [
    (b"[^\x00-", b"\xff]"),
    (b"[^\x01-\xff", b"\x00]"),
    (b"[^\x00-\xfe", b"\xff]"),
    (b"[^\x80-\xff\x00-", b"\x7f]"),
    (b"[^\x00-za-", b"\xff]"),
    (b"[^\x00-,\\-.-Z\\[-\\]\\^_-", b"\xff]"),
    (b"[^[:cntrl:][:print:]\x80-", b"\xff]"),
    // 32 is left.
    (b"[^[:graph:][:cntrl:]\x80-\xff", b" ]"),
    // 32 to 126 are left: `[:punct:]` would leave some.
    (b"[^[:cntrl:]\x80-\xff[:p", b"rint:]]"),
    // `]` is left, or `-`: other bytes can be escaped.
    (b"[^\x00-\\\\\\^-\xff\\", b"]]"),
    (b"[^\x00-,.-\xff\\", b"-]"),
    // In a longer pattern.
    (b"(a|[^\x00-", b"\xff])"),
    (b"a{2}[^\x00-", b"\xff]{33}"),
    (b"[^\x00-\x7f][^\x00-", b"\xff]"),
];

// The byte 5 is left.
const FIVE_LEFT: [Cut; 11] = [
    (b"[^\x00-\x04\x06-\xff", b"\x05]"),
    (b"[^\x00-\x04\x06-\xff\x04-", b"\x05]"),
    (b"[^\x00-\x04\x06-\xff\x00-", b"\xff]"),
    // Whatever is escaped is above 5, and in a range from 0 on 5 is below it.
    (b"[^\x00-\x04\x06-\xff\x00-", b"\\(]"),
    // Only the name `cntrl` begins so.
    (b"[^\x00-\x04\x06-\xff[:", b"cntrl:]]"),
    (b"[^\x00-\x04\x06-\xff[:", b"c"),
    // What is unfinished can go on: a name that leaves 5, an escape, a range above 5 or below it.
    (b"[^\x00-\x04\x06-\xff[:a", b""),
    (b"[^\x00-\x04\x06-\xff[:", b""),
    (b"[^\x00-\x04\x06-\xff\\", b""),
    (b"[^\x00-\x04\x06-\xff\x06-\\", b""),
    (b"[^\x00-\x04\x06-\xff\x03-", b""),
];

// One byte is left, and a range is begun below it. Of the bytes that can be escaped only `{`, `|` and `}`
// are above `a`.
const RANGE_BEGUN: [Cut; 11] = [
    // `{` is left: each of the three takes it.
    (b"[^\x00-z|-\xffa-", b"\\{]"),
    (b"[^\x00-z|-\xffa-", b"\\"),
    (b"[^\x00-z|-\xffa-", b"{]"),
    // `|` is: `{` leaves it.
    (b"[^\x00-{}-\xffa-\\", b""),
    (b"[^\x00-{}-\xffa-\\", b"|]"),
    (b"[^\x00-{}-\xffa-\\", b"}]"),
    // `}` is, and `~`.
    (b"[^\x00-|~-\xffa-\\", b"}]"),
    (b"[^\x00-}\x7f-\xffa-\\}", b"~]"),
    // `-` is: each range from `,` to a byte that can be escaped takes it; from `+`, `+-\+` does not.
    (b"[^\x00-,.-\xff,-", b"\\.]"),
    (b"[^\x00-,.-\xff+-\\", b"-]"),
    (b"[^\x00-,.-\xff+-", b".]"),
];

// Several bytes are left, and names take them.
const NAMED: [Cut; 14] = [
    // The digits are left.
    (b"[^\x00-/:-\xff[:", b"digit:]]"),
    (b"[^\x00-/:-\xff[:", b"xdigit:]]"),
    (b"[^\x00-/:-\xff[:", b"graph:]]"),
    (b"[^\x00-/:-\xff[:al", b"num:]]"),
    (b"[^\x00-/:-\xff[:p", b"rint:]]"),
    (b"[^\x00-/:-\xff0-", b"9]"),
    (b"[^\x00-/:-\xff0-8", b"9]"),
    (b"[^\x00-/:-\xff[:pu", b""),
    // A to F and a to f are.
    (b"[^\x00-@G-`g-\xff[:", b"alpha:]]"),
    (b"[^\x00-@G-`g-\xff[:", b"xdigit:]]"),
    (b"[^\x00-@G-`g-\xff[:upper:][:", b"lower:]]"),
    // The space is.
    (b"[^[:graph:][:cntrl:]\x80-\xff[:", b"space:]]"),
    (b"[^[:graph:][:cntrl:]\x80-\xff[:", b"blank:]]"),
    (b"[^[:graph:][:cntrl:]\x80-\xff[:p", b"rint:]]"),
];

// Ranges over high bytes, where a byte is left whatever follows.
const RANGES: [Cut; 4] = [
    (b"[\x80-", b"\x7f]"),
    (b"[^\xff-", b"\xfe]"),
    (b"[\xff-", b"\\}]"),
    (b"[\x00-", b""),
];

// Whether the pattern is refused where it is cut.
fn refused_there(heap: Global, begun: &[u8], rest: &[u8]) -> Result<bool, AllocError> {
    let mut bytes = Vec::new(heap);
    bytes.extend_from_slice(begun)?;
    bytes.extend_from_slice(rest)?;
    let said = Pattern::new().read(&bytes);
    Ok(said == Err(Layer::Pattern.fault(Refusal::BadlyWritten, begun.len())))
}

#[test]
fn where_nothing_is_left(rt: HostRuntime) -> Result<(), Fail> {
    let tables: [&[Cut]; 5] = [&NOTHING_LEFT, &FIVE_LEFT, &RANGE_BEGUN, &NAMED, &RANGES];
    for cuts in tables {
        for (begun, rest) in cuts {
            assert!(rt;
                refused_there(rt.alloc(), begun, rest)?,
                "at {begun:?} and {rest:?}"
            );
        }
    }
    Ok(())
}
