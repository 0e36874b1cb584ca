// The counted repeat, from after its brace: a least and a most count, or one for both.
ghost use Rattle.std.specs.Prelude.{◌≡◌, ℕ, ◌+◌, ◌<◌, ◌≤◌, Decides, IfOk, MatchOption, MatchResult};
ghost use Rattle.pattern.specs.Cursors.{OnePattern, Stands};
ghost use Rattle.notation.specs.Automaton.{count_kind, digit, count_can_begin, count_can_go_on};
ghost use Rattle.pattern.specs.Repeats.{NumberRead, NumberRefused, CountsRead, CountsRefused, Braced};

use crate::cursor::Cursor;
use fault::Fault;

fn digit_at(from: Cursor) -> Option<u8>
    ensures value { MatchOption result ((b k : ℕ) → Stands from.entry b → count_kind b ≡ digit k → ⊥) (λ k. (k < 10) × Stands from.entry (48 + k)) }
{
    match from.peek() {
        Some(byte @ b'0'..=b'9') => Some(byte - b'0'),
        _ => None,
    }
}

// Alone or with one more digit, `first` is a count from `least` to 32.
fn can_begin(least: u8, first: u8) -> bool
    ensures value { result ≡ count_can_begin least first }
{
    least <= first || (1 <= first && first <= 3 && least <= 10 * first + 9)
}

fn can_go_on(least: u8, first: u8, second: u8) -> bool
    ensures value { result ≡ count_can_go_on least first second }
{
    let both = 10 * u16::from(first) + u16::from(second);
    1 <= first && u16::from(least) <= both && both <= 32
}

// A count is at most 32, so it has one or two digits.
fn number(from: Cursor, least: u8) -> Result<(u8, Cursor), Fault>
    ensures cases { MatchResult result (λ o. NumberRead from.entry.pattern.now from.entry.at least o.0 o.1.at) (λ f. NumberRefused from.entry.pattern.now from.entry.at least f) }
    ensures same { IfOk result (λ o. OnePattern from.entry o.1) }
{
    let Some(first) = digit_at(from) else {
        return Err(from.refuse());
    };
    if !can_begin(least, first) {
        return Err(from.refuse());
    }
    let after = from.next();
    let Some(second) = digit_at(after) else {
        return Ok((first, after));
    };
    if can_go_on(least, first, second) {
        return Ok((10 * first + second, after.next()));
    }
    Ok((first, after))
}

fn closes(from: Cursor, least: u8, most: u8) -> bool
    ensures cases { Decides result (Stands from.entry 125 × (least ≤ most)) }
{
    from.peek() == Some(b'}') && least <= most
}

pub(crate) fn counts(from: Cursor) -> Result<((u8, u8), Cursor), Fault>
    ensures cases { MatchResult result (λ o. CountsRead from.entry.pattern.now from.entry.at o.0.0 o.0.1 o.1.at) (λ f. CountsRefused from.entry.pattern.now from.entry.at f) }
    ensures same { IfOk result (λ o. OnePattern from.entry o.1) }
{
    let (least, after) = number(from, 0)?;
    match after.byte()? as char {
        '}' => Ok(((least, least), after.next())),
        ',' => {
            let (most, after) = number(after.next(), least)?;
            if !closes(after, least, most) {
                return Err(after.refuse());
            }
            Ok(((least, most), after.next()))
        }
        _ => Err(after.refuse()),
    }
}

// The least and the most count of a repeat that is well written, from its text.
pub(crate) fn pair(text: &[u8]) -> (u8, u8)
    requires written { (m : ℕ) × (n : ℕ) × Braced text.now m n }
    ensures value { Braced text.now result.0 result.1 }
{
    let brace = Cursor {
        pattern: text,
        at: 0,
    };
    let (pair, _) = counts(brace.next()).unwrap();
    pair
}
