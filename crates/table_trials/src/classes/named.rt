// The names that a class can have. The bytes of each are what the standard says of the POSIX locale, written
// out: letters, digits and punctuation of ASCII.
use crate::classes::{Range, takes};
use std::test::Fail;

// A class of the name alone, the class of all others, and the bytes of the name.
type Case = (&'static str, &'static str, &'static [Range]);

const NAMES: [Case; 12] = [
    ("[[:upper:]]", "[^[:upper:]]", &[(b'A', b'Z')]),
    ("[[:lower:]]", "[^[:lower:]]", &[(b'a', b'z')]),
    // The letters.
    ("[[:alpha:]]", "[^[:alpha:]]", &[(b'A', b'Z'), (b'a', b'z')]),
    ("[[:digit:]]", "[^[:digit:]]", &[(b'0', b'9')]),
    // The letters and the digits.
    (
        "[[:alnum:]]",
        "[^[:alnum:]]",
        &[(b'0', b'9'), (b'A', b'Z'), (b'a', b'z')],
    ),
    // The digits of base 16.
    (
        "[[:xdigit:]]",
        "[^[:xdigit:]]",
        &[(b'0', b'9'), (b'A', b'F'), (b'a', b'f')],
    ),
    // Tab, line feed, vertical tab, form feed and carriage return, which are 9 to 13; and the space.
    ("[[:space:]]", "[^[:space:]]", &[(9, 13), (32, 32)]),
    // Tab and space.
    ("[[:blank:]]", "[^[:blank:]]", &[(9, 9), (32, 32)]),
    // All that is printed and is neither a letter, nor a digit, nor the space: ! " # $ % & ' ( ) * + , - . /
    // and : ; < = > ? @ and [ \ ] ^ _ ` and { | } ~
    (
        "[[:punct:]]",
        "[^[:punct:]]",
        &[(33, 47), (58, 64), (91, 96), (123, 126)],
    ),
    // Letters, digits and punctuation, which are together 33 to 126.
    ("[[:graph:]]", "[^[:graph:]]", &[(33, 126)]),
    // These and the space.
    ("[[:print:]]", "[^[:print:]]", &[(32, 126)]),
    // The rest of ASCII.
    ("[[:cntrl:]]", "[^[:cntrl:]]", &[(0, 31), (127, 127)]),
];

#[test]
fn each_name_takes_its_bytes(rt: HostRuntime) -> Result<(), Fail> {
    for (name, others, ranges) in NAMES {
        assert!(rt; takes(name.as_bytes(), ranges, false)?, "at {name}");
        assert!(rt; takes(others.as_bytes(), ranges, true)?, "at {others}");
    }
    Ok(())
}
