// A strip begun, fed and filed. What is filed is taken away: neither feeding it again nor filing it
// into a second slot compiles. It is begun and fed apart, so that those two can be tried here. The
// roll and what is lent with its calls stay two values, as a roll outlives what is lent.
use fault::Fault;
use folding::fold::Judging;
use folding::tally::Tally;
use roll::feeding::{begin, feed};
use roll::{LentMut, Roll};

pub(crate) fn file<M: Judging>(
    roll: &mut Roll,
    lent: &mut LentMut<M>,
    slot: usize,
    text: &[u8],
) -> Result<Tally, Fault> {
    let mut strip = begin(lent.machine);
    feed(lent.machine, &mut strip, text)?;
    let tally = roll.file(lent, slot, strip)?;
    Ok(tally)
}
