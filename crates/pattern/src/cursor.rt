// A place in a pattern, which is never past its end: what each private reader is given, and what
// those that read on hand back. That it stands in the same pattern each says of the two
// (`OnePattern`), since no field of one can.
ghost use Rattle.std.specs.Prelude.{◌≡◌, ◌+◌, ◌<◌, ◌≤◌, length, MatchOption, MatchResult, slice_range};
ghost use Rattle.fault.specs.declared.Refusal.TheVariants.{BadlyWritten};
ghost use Rattle.notation.specs.Refusals.{refused};

use fault::{Fault, Layer, Refusal};

#[derive(Clone, Copy)]
pub struct Cursor<'a> {
    pub(crate) pattern: &'a [u8],
    pub(crate) at: usize,
    ghost within: { at ≤ length pattern.now },
}

impl<'a> Cursor<'a> {
    ghost use Rattle.pattern.specs.Cursors.{Stands, IsAtEnd, OnePattern};

    // The byte here, where the pattern has not ended.
    pub(crate) fn peek(self) -> Option<u8>
        ensures cases { MatchOption result (IsAtEnd self.entry) (Stands self.entry) }
    {
        self.pattern.get(self.at).copied()
    }

    // The byte here; a pattern that ends here is badly written.
    pub(crate) fn byte(self) -> Result<u8, Fault>
        ensures cases { MatchResult result (Stands self.entry) (λ f. IsAtEnd self.entry × (f ≡ refused BadlyWritten self.entry.at)) }
    {
        self.peek().ok_or(self.refuse())
    }

    pub(crate) fn skip(self, len: usize) -> Cursor<'a>
        requires fits { self.at + len ≤ length self.pattern.now }
        ensures pattern { OnePattern self.entry result }
        ensures at { result.at ≡ self.entry.at + len }
    {
        Cursor {
            pattern: self.pattern,
            at: self.at + len,
        }
    }

    pub(crate) fn next(self) -> Cursor<'a>
        requires inside { self.at < length self.pattern.now }
        ensures pattern { OnePattern self.entry result }
        ensures at { result.at ≡ self.entry.at + 1 }
    {
        self.skip(1)
    }

    // The part of the pattern from here to `end`.
    pub(crate) fn until(self, end: Cursor) -> &'a [u8]
        requires same { OnePattern self end }
        requires forward { self.at ≤ end.at }
        ensures value { result.now ≡ slice_range self.entry.pattern.now self.entry.at end.entry.at }
    {
        &self.pattern[self.at..end.at]
    }

    // The pattern is badly written here.
    pub(crate) fn refuse(self) -> Fault
        ensures value { result ≡ refused BadlyWritten self.entry.at }
    {
        Layer::Pattern.fault(Refusal::BadlyWritten, self.at)
    }
}
