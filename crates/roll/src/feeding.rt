// Beginning and feeding strips.
ghost use Rattle.roll.specs.Steps.{Begins, Feeds, StripOf};

use crate::strip::Strip;
use fault::{Fault, Layer, Refusal};
use folding::fold::Folding;
use folding::tally::Tallying;

// As many bytes as a strip can have.
pub const LONGEST: usize = 1_000_000;

// An open strip of no bytes.
pub fn begin<M: Folding>(machine: &M) -> Strip<M::Leg>
    ensures begins { Begins (M.Folding.leg machine.now) result }
{
    Strip {
        leg: machine.empty(),
        tally: Tallying.empty(),
        fed: 0,
    }
}

// Adds bytes to a strip, and answers how many it has now. Refused where they would be more than
// 1,000,000, and then the strip stays as it was.
pub fn feed<M: Folding>(
    machine: &M,
    strip: &mut Strip<M::Leg>,
    bytes: &[u8],
) -> Result<usize, Fault>
    ensures feeds { Feeds (M.Folding.leg machine.now) strip.old bytes.now result strip.new }
{
    if bytes.len() > LONGEST - strip.fed {
        return Err(Layer::Roll.fault(Refusal::StripTooLong, strip.fed));
    }
    strip.leg = machine.extend(&strip.leg, bytes);
    strip.tally = Tallying.extend(&strip.tally, bytes);
    strip.fed += bytes.len();
    Ok(strip.fed)
}

// An open strip of a text that is at hand whole.
pub fn strip_of<M: Folding>(machine: &M, text: &[u8]) -> Result<Strip<M::Leg>, Fault>
    ensures cases { StripOf (M.Folding.leg machine.now) text.now result }
{
    let mut strip = begin(machine);
    feed(machine, &mut strip, text)?;
    Ok(strip)
}
