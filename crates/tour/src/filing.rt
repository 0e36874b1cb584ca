// Filing texts that are at hand whole.
use fault::Fault;
use folding::fold::Judging;
use folding::tally::Tally;
use roll::feeding::strip_of;
use roll::{LentMut, Roll};

// The text goes away; the strip holds its leg and its tally. Filing takes the strip, and a refused
// filing would hand it back: here only the fault is wanted, and `?` lets the strip go.
pub(crate) fn file<M: Judging>(
    roll: &mut Roll,
    lent: &mut LentMut<M>,
    slot: usize,
    text: &[u8],
) -> Result<Tally, Fault> {
    let strip = strip_of(lent.machine, text)?;
    let tally = roll.file(lent, slot, strip)?;
    Ok(tally)
}

// The four strips of the names, slot by slot.
pub(crate) fn fill<M: Judging>(roll: &mut Roll, lent: &mut LentMut<M>) -> Result<(), Fault> {
    for (slot, text) in [
        (0, b"Ada\nBo".as_slice()),
        (1, b"b\nCarl\n".as_slice()),
        (2, b"Dora\n".as_slice()),
        (3, b"Eve\n".as_slice()),
    ] {
        file(roll, lent, slot, text)?;
    }
    Ok(())
}
