// Rolls that hold one text in four strips: cut in every way and filed out of order, or after other strips.
use bundle::report::Report;
use fault::Fault;
use folding::fold::{Folding, Judging};
use folding::tally::{Tally, Tallying};
use roll::feeding::strip_of;
use roll::{LentMut, Roll};

// A text of one line, and the other matcher's verdict on it.
#[derive(Clone, Copy)]
pub(crate) struct Trial<'a> {
    pub(crate) text: &'a [u8],
    pub(crate) verdict: bool,
}

impl Trial<'_> {
    // What the last of many rolls reports, if they all agree with the other matcher. The legs are lent,
    // eight of them: how large an array of them would be is known only where the machine is.
    pub(crate) fn under<M: Judging>(
        &self,
        machine: &M,
        legs: &mut [M::Leg],
    ) -> Result<Option<Report>, Fault> {
        let alike = every_cut(machine, legs, self.text, self.verdict)?;
        let report = after_others(machine, legs, self.text)?;
        let totals = Tally {
            bytes: u32::try_from(self.text.len()).unwrap_or(u32::MAX),
            lines: 0,
        };
        let said = report.verdict == self.verdict && report.totals == totals;
        Ok(if alike && said { Some(report) } else { None })
    }
}

fn file_all<M: Judging>(
    roll: &mut Roll,
    lent: &mut LentMut<M>,
    strips: &[(usize, &[u8])],
) -> Result<(), Fault> {
    for (slot, text) in strips {
        let strip = strip_of(lent.machine, text)?;
        roll.file(lent, *slot, strip)?;
    }
    Ok(())
}

// The verdict over four strips, the cuts at i, j and k.
fn cut<M: Judging>(
    machine: &M,
    legs: &mut [M::Leg],
    text: &[u8],
    i: usize,
    j: usize,
    k: usize,
) -> Result<bool, Fault> {
    let mut lent = LentMut {
        machine,
        legs,
        tallies: &mut [Tallying.empty(); 8],
    };
    let mut roll = Roll::new::<M, M>();
    roll.open(&mut lent, 4)?;
    let (front, back) = text.split_at(j.min(text.len()));
    let (first, second) = front.split_at(i.min(front.len()));
    let (third, last) = back.split_at(k.min(back.len()));
    let strips = [(2, third), (0, first), (3, last), (1, second)];
    file_all(&mut roll, &mut lent, &strips)?;
    roll.verdict(&lent.shared())
}

// Whether every way of cutting the text gives this verdict: i, j and k are the cuts.
fn every_cut<M: Judging>(
    machine: &M,
    legs: &mut [M::Leg],
    text: &[u8],
    verdict: bool,
) -> Result<bool, Fault> {
    let n = text.len().min(64);
    for j in 0..=n {
        for i in 0..=j {
            for k in 0..=n {
                if cut(machine, legs, text, i, j, k)? != verdict {
                    return Ok(false);
                }
            }
        }
    }
    Ok(true)
}

// Files other strips before the roll is opened anew, and others again, of which one is withdrawn.
fn hold_others<M: Judging>(
    roll: &mut Roll,
    lent: &mut LentMut<M>,
    text: &[u8],
) -> Result<(), Fault> {
    let (front, back) = text.split_at(text.len() / 2);
    let other: &[u8] = b"!\n";
    roll.open(lent, 4)?;
    file_all(roll, lent, &[(0, other), (1, text), (2, other), (3, front)])?;
    roll.open(lent, 4)?;
    file_all(roll, lent, &[(1, back), (3, other), (0, other), (2, text)])?;
    roll.withdraw(lent, 2)
}

// The answers of a roll that held others: all but one are corrected, and the one that was withdrawn is
// filed again.
fn after_others<M: Judging>(
    machine: &M,
    legs: &mut [M::Leg],
    text: &[u8],
) -> Result<Report, Fault> {
    let mut lent = LentMut {
        machine,
        legs,
        tallies: &mut [Tallying.empty(); 8],
    };
    let mut roll = Roll::new::<M, M>();
    hold_others(&mut roll, &mut lent, text)?;
    let (front, back) = text.split_at(text.len() / 2);
    let (first, second) = front.split_at(front.len() / 2);
    let (third, last) = back.split_at(back.len() / 2);
    let strips = [(0, first), (3, last), (2, third), (1, second)];
    file_all(&mut roll, &mut lent, &strips)?;
    let lent = lent.shared();
    Ok(Report {
        verdict: roll.verdict(&lent)?,
        totals: roll.totals(&lent)?,
        culprit: roll.culprit(&lent)?,
    })
}
