// Whether a pattern is read or refused, in the order of the refusals.
ghost use Rattle.std.specs.Prelude.{MatchResult};
ghost use Rattle.notation.specs.Reading.{Granted, Refused, Assembled, Unwritten};

use crate::assembly::Assembly;
use crate::count::Count;
use crate::cursor::Cursor;
use crate::reader::alternatives;
use fault::{Fault, Layer, Refusal};

const LONGEST: usize = 256;

const DEEPEST: u8 = 16;

const MOST_PLACES: u8 = 63;

// What a pattern is put together as, however many places it has.
pub(crate) fn assemble<T: Assembly>(bytes: &[u8]) -> Result<T, Fault>
    ensures cases { MatchResult result (λ a. Assembled T.Assembly.stands bytes.now a) (λ f. Unwritten bytes.now f) }
{
    if bytes.len() > LONGEST {
        return Err(Layer::Pattern.fault(Refusal::PatternTooLong, bytes.len()));
    }
    let start = Cursor {
        pattern: bytes,
        at: 0,
    };
    let (end, part) = alternatives(start, DEEPEST)?;
    match end.peek() {
        Some(_) => Err(end.refuse()),
        None => Ok(part),
    }
}

// How many places a pattern has.
pub(crate) fn places(bytes: &[u8]) -> Result<u8, Fault>
    ensures cases { MatchResult result (λ n. Granted bytes.now n) (λ f. Refused bytes.now f) }
{
    let count = assemble::<Count>(bytes)?;
    if count.places > MOST_PLACES {
        return Err(Layer::Pattern.fault(Refusal::TooManyPlaces, 0));
    }
    Ok(count.places)
}
