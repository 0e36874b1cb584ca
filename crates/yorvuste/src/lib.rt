// The library's calls from C, and from whatever calls C: numbers and slices in and out. include/yorvuste.h
// declares them, and docs/calls.md says how to call them. A slice crosses as a pointer and then a length.
#![tactic(auto)]

ghost use Rattle.std.specs.Prelude.{◌≤◌};
ghost use Rattle.yorvuste.specs.Judgements.{Numbers};
ghost use Rattle.yorvuste.specs.Readings.{Reads};
ghost use Rattle.yorvuste.specs.Texts.{Answered};

mod judging;
mod reading;
mod texts;

use crate::judging::{Judgement, judgement_of};
use crate::reading::{Reading, reading_of};
use crate::texts::checked;

// A text of this many bytes has room for every answer of `yorvuste_check`.
pub const YORVUSTE_ROOM: usize = 256;

// Checks a whole bundle. The text of the answer, which is the text that `rollcheck` prints, goes to the
// head of `into`, and its length is answered. Where `into` is shorter than that it stays as it was.
#[unsafe(no_mangle)]
pub extern "C" fn yorvuste_check(input: &[u8], into: &mut [u8]) -> usize
    ensures answered { Answered input.now into.old result into.new }
    ensures short { result ≤ 256 }
{
    checked(input, into)
}

// Reads a pattern.
#[unsafe(no_mangle)]
pub extern "C" fn yorvuste_read(pattern: &[u8]) -> Reading
    ensures reads { Reads pattern.now result }
{
    reading_of(pattern)
}

// Judges a text under a pattern: the text is filed into a roll of 128 slots, in strips of 1,000,000
// bytes. A longer text than that has room for is refused 9, with place 128.
#[unsafe(no_mangle)]
pub extern "C" fn yorvuste_judge(pattern: &[u8], text: &[u8]) -> Judgement
    ensures numbers { Numbers pattern.now text.now result }
{
    judgement_of(pattern, text)
}
