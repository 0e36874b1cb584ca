// Takes a bundle apart, or refuses it for its size.
ghost use Rattle.std.specs.Prelude.{◌≡◌, IfOk, Decides, MatchResult};
ghost use Rattle.bundle.specs.Handed.{pattern_of, strips_of, left, IsOfBytes, Reads};
ghost use Rattle.bundle.specs.Laws.{OneReading, Granted};
ghost use Rattle.bundle.specs.Layout.{written};
ghost use Rattle.bundle.specs.Sizes.{announced, RightSize};
ghost use Rattle.bundle.specs.Wrong.{WrongSize};

use crate::bytes;
use crate::walk::Strips;
use fault::{Fault, Layer, Refusal};

pub(crate) const LIMIT: usize = 32768;

// A pattern and strips, in the bytes that the caller lent.
#[derive(Clone, Copy)]
pub struct Bundle<'a> {
    pattern: &'a [u8],
    strips: Strips<'a>,
}

// The size that the two sizes and the lengths come to.
fn announced(input: &[u8]) -> usize
    ensures { result ≡ announced input.now }
{
    let n = bytes::word(input, 0);
    let p = bytes::word(input, 2);
    let mut size = 4 + 3 * n + p;
    // Lengths that the input has no bytes for count as 0, so there is no part of it to go over.
    for k in 0..n {
        size += bytes::word(input, 4 + n + 2 * k);
    }
    size
}

fn right_size(input: &[u8]) -> bool
    ensures { Decides result (RightSize input.now) }
{
    input.len() <= LIMIT && input.len() == announced(input)
}

fn parted<'a>(input: &'a [u8]) -> Bundle<'a>
    ensures bytes { IsOfBytes result }
    ensures whole { RightSize input.now
        → input.now ≡ written (pattern_of result) (strips_of result) }
{
    let n = bytes::word(input, 0);
    let p = bytes::word(input, 2);
    let (_, rest) = bytes::part(input, 4);
    let (slots, rest) = bytes::part(rest, n);
    let (lengths, rest) = bytes::part(rest, 2 * n);
    let (pattern, texts) = bytes::part(rest, p);
    let strips = Strips {
        slots,
        lengths,
        texts,
    };
    Bundle { pattern, strips }
}

impl<'a> Bundle<'a> {
    // A longer input counts as one byte more than the limit, since nobody need read on to refuse it.
    pub fn decode(input: &'a [u8]) -> Result<Bundle<'a>, Fault>
        ensures cases { MatchResult result (Reads input.now) (WrongSize input.now) }
        ensures bytes { IfOk result IsOfBytes }
        ensures one_reading { OneReading }
        ensures granted { Granted }
    {
        if right_size(input) {
            Ok(parted(input))
        } else {
            Err(Layer::Bundle.fault(Refusal::BundleSize, input.len().min(LIMIT + 1)))
        }
    }

    pub fn pattern(&self) -> &'a [u8]
        ensures value { result.now ≡ pattern_of self.now }
    {
        self.pattern
    }

    pub fn strips(&self) -> Strips<'a>
        ensures value { left result ≡ strips_of self.now }
    {
        self.strips
    }
}
