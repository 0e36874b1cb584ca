// The signs that a pattern is made of, read one at a time.
ghost use Rattle.std.specs.Prelude.{◌≡◌, ◌^◌, ◌<◌, Bool, true, false, length, MatchResult};
ghost use Rattle.pattern.specs.Cursors.{Stands};
ghost use Rattle.fault.specs.declared.Refusal.TheVariants.{BadlyWritten};
ghost use Rattle.notation.specs.Refusals.{refused};
ghost use Rattle.pattern.specs.Signs.{text, Handed, SignRefused};

use crate::character::is_escapable;
use crate::cursor::Cursor;
use crate::{class, repeat};
use fault::Fault;

// Each sign is the part of the pattern that it came from; of a class, what stands between its brackets.
// `End` is a sign and no `None`: the alternatives of a group end at it as they do at a `Close`.
#[derive(Clone, Copy)]
pub enum Sign<'a> {
    Plain(&'a [u8]),
    Escape(&'a [u8]),
    Any(&'a [u8]),
    Class(&'a [u8]),
    Bar(&'a [u8]),
    Star(&'a [u8]),
    Plus(&'a [u8]),
    Question(&'a [u8]),
    Counted(&'a [u8]),
    Open(&'a [u8]),
    Close(&'a [u8]),
    End,
}

impl Sign<'_> {
    // How many bytes of the pattern the sign is.
    pub(crate) fn len(&self) -> usize
        requires fits { length (text self.now) < 2 ^ 64 }
        ensures value { result ≡ length (text self.now) }
    {
        match self {
            Sign::Class(t) => t.len() + 2,
            Sign::End => 0,
            Sign::Plain(t)
            | Sign::Escape(t)
            | Sign::Any(t)
            | Sign::Bar(t)
            | Sign::Star(t)
            | Sign::Plus(t)
            | Sign::Question(t)
            | Sign::Counted(t)
            | Sign::Open(t)
            | Sign::Close(t) => t.len(),
        }
    }
}

// A repeat stands only after an atom that has none yet.
fn repeat_sign<'a>(sign: Sign<'a>, from: Cursor, after: bool) -> Result<Sign<'a>, Fault>
    ensures cases { MatchResult result (λ s. (s ≡ sign.entry) × (after ≡ true)) (λ f. (f ≡ refused BadlyWritten from.entry.at) × (after ≡ false)) }
{
    if after { Ok(sign) } else { Err(from.refuse()) }
}

fn counted(from: Cursor, after: bool) -> Result<Sign, Fault>
    requires brace { Stands from 123 }
    ensures cases { MatchResult result (Handed from.entry.pattern.now from.entry.at after) (SignRefused from.entry.pattern.now from.entry.at after) }
{
    if !after {
        return Err(from.refuse());
    }
    let (_, end) = repeat::counts(from.next())?;
    Ok(Sign::Counted(from.until(end)))
}

fn class_sign(from: Cursor) -> Result<Sign, Fault>
    requires bracket { Stands from 91 }
    ensures cases { (after : Bool) → MatchResult result (Handed from.entry.pattern.now from.entry.at after) (SignRefused from.entry.pattern.now from.entry.at after) }
{
    let inside = from.next();
    let end = class::end(inside)?;
    Ok(Sign::Class(inside.until(end)))
}

fn escape(from: Cursor) -> Result<Sign, Fault>
    requires backslash { Stands from 92 }
    ensures cases { (after : Bool) → MatchResult result (Handed from.entry.pattern.now from.entry.at after) (SignRefused from.entry.pattern.now from.entry.at after) }
{
    let escaped = from.next();
    if !is_escapable(escaped.byte()?) {
        return Err(escaped.refuse());
    }
    Ok(Sign::Escape(from.until(escaped.next())))
}

// The sign at `at`, where `after` says that an atom stands before it that can still be repeated.
pub(crate) fn sign_at(p: &[u8], at: usize, after: bool) -> Result<Sign, Fault>
    ensures cases { MatchResult result (Handed p.now at after) (SignRefused p.now at after) }
{
    if at >= p.len() {
        return Ok(Sign::End);
    }
    let from = Cursor { pattern: p, at };
    let byte = &p[at..at + 1];
    match p[at] as char {
        '|' => Ok(Sign::Bar(byte)),
        '*' => repeat_sign(Sign::Star(byte), from, after),
        '+' => repeat_sign(Sign::Plus(byte), from, after),
        '?' => repeat_sign(Sign::Question(byte), from, after),
        '(' => Ok(Sign::Open(byte)),
        ')' => Ok(Sign::Close(byte)),
        '[' => class_sign(from),
        ']' => Err(from.refuse()),
        '{' => counted(from, after),
        '}' => Err(from.refuse()),
        '.' => Ok(Sign::Any(byte)),
        '\\' => escape(from),
        _ => Ok(Sign::Plain(byte)),
    }
}
