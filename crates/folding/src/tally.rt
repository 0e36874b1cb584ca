// The bytes and line ends of a text, as a folding.
ghost use Rattle.std.specs.Prelude.{◌≡◌, ◌≤◌, ◌+◌, length, min};
ghost use Rattle.folding.specs.Tallies.{line_ends as line_ends_of, most, tally};

use crate::fold::Folding;

// How many bytes and how many line ends (byte 10) a text has, each at most 4,294,967,295.
#[derive(Clone, Copy, PartialEq, Eq, Debug)]
pub struct Tally {
    pub bytes: u32,
    pub lines: u32,
}

// A sum that stops at the largest number, so that a text of any length has a tally.
fn capped(a: u32, b: u32) -> u32
    ensures value { result ≡ min (a + b) most }
{
    a.saturating_add(b)
}

// A number, or the largest one.
fn number(n: usize) -> u32
    ensures value { result ≡ min n most }
{
    u32::try_from(n).unwrap_or(u32::MAX)
}

// The longest whole number of 32 bytes whose line ends a byte can count.
const PIECE: usize = 224;

// A count as narrow as the bytes, and no branch on them, so that many are compared and counted at once.
fn line_ends_of_piece(piece: &[u8]) -> u8
    requires short { length piece.now ≤ 255 }
    ensures value { result ≡ line_ends_of piece.now }
{
    let mut count = 0;
    for c in piece {
        count += u8::from(*c == 10);
    }
    count
}

fn line_ends(text: &[u8]) -> usize
    ensures value { result ≡ line_ends_of text.now }
{
    let mut count = 0;
    for piece in text.chunks(PIECE) {
        count += usize::from(line_ends_of_piece(piece));
    }
    count
}

// The folding whose leg of a text is the text's tally.
#[derive(Clone, Copy)]
pub struct Tallying;

impl Folding for Tallying {
    type Leg = Tally;

    ghost leg = { λ _ w. tally w };

    fn empty(&self) -> Tally {
        Tally { bytes: 0, lines: 0 }
    }

    fn step(&self, at: &Tally, c: u8) -> Tally {
        let end = u32::from(c == 10);
        Tally {
            bytes: capped(at.bytes, 1),
            lines: capped(at.lines, end),
        }
    }

    // In one sweep that only counts line ends, several bytes at once.
    fn extend(&self, at: &Tally, text: &[u8]) -> Tally {
        Tally {
            bytes: capped(at.bytes, number(text.len())),
            lines: capped(at.lines, number(line_ends(text))),
        }
    }

    fn join(&self, first: &Tally, second: &Tally) -> Tally {
        Tally {
            bytes: capped(first.bytes, second.bytes),
            lines: capped(first.lines, second.lines),
        }
    }
}
