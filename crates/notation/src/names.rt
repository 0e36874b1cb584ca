// The names that a class can have among its members, as POSIX has them in the POSIX locale.
ghost use Rattle.std.specs.Prelude.{◌≡◌};
ghost use Rattle.notation.specs.Names.{written, Marks, ranges};

use crate::tables::{
    ALNUM, ALPHA, BLANK, CNTRL, DIGIT, GRAPH, LOWER, PRINT, PUNCT, SPACE, UPPER, XDIGIT,
};

#[derive(Clone, Copy)]
pub enum Name {
    Alpha,
    Digit,
    Alnum,
    Upper,
    Lower,
    Space,
    Blank,
    Punct,
    Print,
    Graph,
    Cntrl,
    Xdigit,
}

// Each once: the reader is proved to miss none.
pub const NAMES: [Name; 12] = [
    Name::Alpha,
    Name::Digit,
    Name::Alnum,
    Name::Upper,
    Name::Lower,
    Name::Space,
    Name::Blank,
    Name::Punct,
    Name::Print,
    Name::Graph,
    Name::Cntrl,
    Name::Xdigit,
];

impl Name {
    // How the name is written in a class.
    pub fn written(self) -> &'static [u8]
        ensures value { result.now ≡ written self }
    {
        match self {
            Name::Alpha => b"[:alpha:]",
            Name::Digit => b"[:digit:]",
            Name::Alnum => b"[:alnum:]",
            Name::Upper => b"[:upper:]",
            Name::Lower => b"[:lower:]",
            Name::Space => b"[:space:]",
            Name::Blank => b"[:blank:]",
            Name::Punct => b"[:punct:]",
            Name::Print => b"[:print:]",
            Name::Graph => b"[:graph:]",
            Name::Cntrl => b"[:cntrl:]",
            Name::Xdigit => b"[:xdigit:]",
        }
    }

    // For each byte, 1 where the name takes it, and else 0.
    pub fn table(self) -> &'static [u8; 256]
        ensures value { Marks result.now (ranges self) }
    {
        match self {
            Name::Alpha => &ALPHA,
            Name::Digit => &DIGIT,
            Name::Alnum => &ALNUM,
            Name::Upper => &UPPER,
            Name::Lower => &LOWER,
            Name::Space => &SPACE,
            Name::Blank => &BLANK,
            Name::Punct => &PUNCT,
            Name::Print => &PRINT,
            Name::Graph => &GRAPH,
            Name::Cntrl => &CNTRL,
            Name::Xdigit => &XDIGIT,
        }
    }
}
