// A roll under the machine of one's own.
use crate::answers::tell;
use crate::few_lines::FewLines;
use crate::filing::fill;
use folding::fold::Folding;
use folding::tally::Tallying;
use roll::{LentMut, Roll};

// The same four strips; only the machine is another.
pub(crate) fn roll_of_few_lines(rt: &impl Print) -> anyhow::Result<()> {
    let machine = FewLines { most: 3 };
    let mut lent = LentMut {
        machine: &machine,
        legs: &mut [machine.empty(); 8],
        tallies: &mut [Tallying.empty(); 8],
    };
    let mut roll = Roll::new::<FewLines, FewLines>();
    roll.open(&mut lent, 4)?;
    fill(&mut roll, &mut lent)?;
    tell(rt, "at most 3 lines", &roll, &lent)?;
    roll.withdraw(&mut lent, 1)?;
    tell(rt, "without slot 1", &roll, &lent)
}
