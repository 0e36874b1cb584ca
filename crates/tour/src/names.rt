// A roll of four slots under the machine of a pattern.
use crate::answers::tell;
use crate::filing::file;
use folding::fold::Folding;
use folding::tally::Tallying;
use machines::PlaceMachine;
use roll::feeding::{begin, feed};
use roll::{LentMut, Roll};

// Four slots take tables of eight legs and eight tallies. What is in them does not matter: opening
// writes all of it. The machine, the roll and both tables are then kept from call to call.
pub(crate) fn roll_of_names(rt: &impl Print, machine: &PlaceMachine) -> anyhow::Result<()> {
    let mut lent = LentMut {
        machine,
        legs: &mut [machine.empty(); 8],
        tallies: &mut [Tallying.empty(); 8],
    };
    let mut roll = Roll::new::<PlaceMachine, PlaceMachine>();
    roll.open(&mut lent, 4)?;
    tell(rt, "opened", &roll, &lent)?;
    file_four(rt, &mut roll, &mut lent)?;
    withdraw_one(rt, &mut roll, &mut lent)?;
    file_elsewhere(rt, &mut roll, &mut lent)
}

// The strips come in any order, and slot 1 comes last. Until then it counts as the empty text, and
// the roll sees `Bo` run on into `Dora`.
fn file_four(
    rt: &impl Print,
    roll: &mut Roll,
    lent: &mut LentMut<PlaceMachine>,
) -> anyhow::Result<()> {
    for (slot, text) in [
        (2, b"Dora\n".as_slice()),
        (0, b"Ada\nBo".as_slice()),
        (3, b"Eve\n".as_slice()),
    ] {
        file(roll, lent, slot, text)?;
    }
    tell(rt, "slot 1 is late", roll, lent)?;
    // This strip is wrong by itself: a small letter where a name begins.
    file(roll, lent, 1, b"b\ncarl\n")?;
    tell(rt, "slot 1 is wrong", roll, lent)?;
    // Filing a slot anew puts the new strip in place of the old one.
    file(roll, lent, 1, b"b\nCarl\n")?;
    tell(rt, "slot 1 is corrected", roll, lent)
}

fn withdraw_one(
    rt: &impl Print,
    roll: &mut Roll,
    lent: &mut LentMut<PlaceMachine>,
) -> anyhow::Result<()> {
    roll.withdraw(lent, 3)?;
    tell(rt, "slot 3 is withdrawn", roll, lent)
}

// Fed in pieces, a strip is that of the pieces joined: the same as was withdrawn. There is no slot 4,
// so the first filing hands the strip back, and it goes into slot 3.
fn file_elsewhere(
    rt: &impl Print,
    roll: &mut Roll,
    lent: &mut LentMut<PlaceMachine>,
) -> anyhow::Result<()> {
    let mut strip = begin(lent.machine);
    let first = feed(lent.machine, &mut strip, b"Ev")?;
    let fed = feed(lent.machine, &mut strip, b"e\n")?;
    println!(rt; "fed {first} bytes, then there were {fed}")?;
    if let Err(returned) = roll.file(lent, 4, strip) {
        println!(rt; "{}", returned.fault)?;
        let tally = roll
            .file(lent, 3, returned.strip)
            .map_err(|again| again.fault)?;
        let bytes = tally.bytes;
        println!(rt; "slot 3 takes its {bytes} bytes")?;
    }
    tell(rt, "slot 3 is held again", roll, lent)
}
