// Rolls run over the small machines: strips out of order, corrected, withdrawn, with refused calls
// between and the questions after each. The expected answers are worked out from the texts.
use crate::filing::file;
use crate::thirds::Thirds;
use crate::zeroless::Zeroless;
use bundle::report::Report;
use fault::{Fault, Layer, Refusal};
use folding::fold::{Folding, Judging};
use folding::tally::{Tally, Tallying};
use roll::feeding::{begin, feed};
use roll::{Lent, LentMut, Roll};
use std::test::Fail;

fn refused<T>(refusal: Refusal, place: usize) -> Result<T, Fault> {
    Err(Layer::Roll.fault(refusal, place))
}

// The answers to the three questions, which are put to the roll itself.
fn asked<M: Judging>(roll: &Roll, lent: &Lent<M>) -> Result<Report, Fault> {
    Ok(Report {
        verdict: roll.verdict(lent)?,
        totals: roll.totals(lent)?,
        culprit: roll.culprit(lent)?,
    })
}

fn report(verdict: bool, bytes: u32, lines: u32, culprit: Option<usize>) -> Report {
    Report {
        verdict,
        totals: Tally { bytes, lines },
        culprit,
    }
}

#[test]
fn a_roll_by_threes(rt: HostRuntime) -> Result<(), Fail> {
    let mut roll = Roll::new::<Thirds, Zeroless>();
    let none = Lent {
        machine: &Thirds,
        legs: &[],
        tallies: &[],
    };
    assert_eq!(rt; asked(&roll, &none)?, report(true, 0, 0, None));
    let mut lent = LentMut {
        machine: &Thirds,
        legs: &mut [0; 8],
        tallies: &mut [Tallying.empty(); 8],
    };
    assert_eq!(rt; roll.open(&mut lent, 3), refused(Refusal::SlotCount, 3));
    roll.open(&mut lent, 4)?;
    assert_eq!(rt; asked(&roll, &lent.shared())?, report(true, 0, 0, None));
    assert_eq!(rt;
        file(&mut roll, &mut lent, 2, b"cd\n")?,
        Tally { bytes: 3, lines: 1 }
    );
    assert_eq!(rt;
        file(&mut roll, &mut lent, 0, b"ab")?,
        Tally { bytes: 2, lines: 0 }
    );
    assert_eq!(rt; asked(&roll, &lent.shared())?, report(false, 5, 1, None));
    assert_eq!(rt;
        file(&mut roll, &mut lent, 4, b"x"),
        refused(Refusal::NoSuchSlot, 4)
    );
    assert_eq!(rt;
        file(&mut roll, &mut lent, 0, b"a\n\n")?,
        Tally { bytes: 3, lines: 2 }
    );
    assert_eq!(rt; asked(&roll, &lent.shared())?, report(true, 6, 3, None));
    Ok(())
}

#[test]
fn a_roll_without_zeros(rt: HostRuntime) -> Result<(), Fail> {
    let mut roll = Roll::new::<Zeroless, Thirds>();
    let mut lent = LentMut {
        machine: &Zeroless,
        legs: &mut [false; 4],
        tallies: &mut [Tallying.empty(); 4],
    };
    roll.open(&mut lent, 2)?;
    assert_eq!(rt; roll.withdraw(&mut lent, 1), refused(Refusal::SlotEmpty, 1));
    assert_eq!(rt;
        roll.withdraw(&mut lent, 2),
        refused(Refusal::NoSuchSlot, 2)
    );
    file(&mut roll, &mut lent, 1, b"a\0")?;
    assert_eq!(rt; asked(&roll, &lent.shared())?, report(false, 2, 0, Some(1)));
    file(&mut roll, &mut lent, 0, b"\0")?;
    assert_eq!(rt; asked(&roll, &lent.shared())?, report(false, 3, 0, Some(0)));
    roll.withdraw(&mut lent, 0)?;
    assert_eq!(rt; asked(&roll, &lent.shared())?, report(false, 2, 0, Some(1)));
    file(&mut roll, &mut lent, 1, b"")?;
    assert_eq!(rt; asked(&roll, &lent.shared())?, report(true, 0, 0, None));
    roll.open(&mut lent, 2)?;
    assert_eq!(rt; roll.withdraw(&mut lent, 1), refused(Refusal::SlotEmpty, 1));
    Ok(())
}

#[test]
fn refusals_in_their_order(rt: HostRuntime) {
    let mut roll = Roll::new::<Zeroless, Zeroless>();
    let mut lent = LentMut {
        machine: &Zeroless,
        legs: &mut [false; 4],
        tallies: &mut [Tallying.empty(); 6],
    };
    assert_eq!(rt; roll.open(&mut lent, 0), refused(Refusal::SlotCount, 0));
    assert_eq!(rt; roll.open(&mut lent, 256), refused(Refusal::SlotCount, 256));
    assert_eq!(rt; roll.open(&mut lent, 1), refused(Refusal::TableLength, 0));
    assert_eq!(rt; roll.open(&mut lent, 2), refused(Refusal::TableLength, 1));
    assert_eq!(rt;
        file(&mut roll, &mut lent, 9, b""),
        refused(Refusal::TableLength, 0)
    );
    let lent = lent.shared();
    assert_eq!(rt; roll.verdict(&lent), refused(Refusal::TableLength, 0));
    let no_legs = Lent { legs: &[], ..lent };
    assert_eq!(rt; roll.totals(&no_legs), refused(Refusal::TableLength, 1));
}

#[test]
fn a_strip_takes_a_million_bytes(rt: HostRuntime) -> Result<(), Fail> {
    let piece = [7; 100000];
    let mut strip = begin(&Thirds);
    // After n pieces.
    for n in 1..11 {
        assert_eq!(rt; feed(&Thirds, &mut strip, &piece)?, n * 100000);
    }
    assert_eq!(rt;
        feed(&Thirds, &mut strip, &[7]),
        refused(Refusal::StripTooLong, 1000000)
    );
    assert_eq!(rt; feed(&Thirds, &mut strip, &[])?, 1000000);
    Ok(())
}
