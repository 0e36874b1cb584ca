// The three questions that a roll answers, and the line that says what it answered.
use fault::Fault;
use folding::fold::Judging;
use folding::tally::Tally;
use roll::{Lent, LentMut, Roll};
use std::fmt;

#[derive(Clone, Copy)]
struct Answers {
    verdict: bool,
    totals: Tally,
    culprit: Option<usize>,
}

// A question only reads, so it is lent the tables to be read. It may be put at any time.
fn ask<M: Judging>(roll: &Roll, lent: &Lent<M>) -> Result<Answers, Fault> {
    Ok(Answers {
        verdict: roll.verdict(lent)?,
        totals: roll.totals(lent)?,
        culprit: roll.culprit(lent)?,
    })
}

impl fmt::Display for Answers {
    fn fmt<W: fmt::Write>(&self, f: &mut fmt::Formatter<W>) -> fmt::Result {
        let verdict = if self.verdict { "yes" } else { "no" };
        let bytes = self.totals.bytes;
        let lines = self.totals.lines;
        write!(f, "{verdict}, {bytes} bytes, {lines} lines, ")?;
        match self.culprit {
            Some(slot) => write!(f, "lost at {slot}"),
            None => f.write_str("not lost"),
        }
    }
}

pub(crate) fn tell<M: Judging>(
    rt: &impl Print,
    what: &str,
    roll: &Roll,
    lent: &LentMut<M>,
) -> anyhow::Result<()> {
    let answers = ask(roll, &lent.shared())?;
    println!(rt; "{what}: {answers}")?;
    Ok(())
}
