// What a checked bundle comes to, and the lines that say so.
ghost use Rattle.std.specs.Prelude.{◌≡◌, Some};
ghost use Rattle.bundle.specs.Lines.{answer, at, lines};

use folding::tally::Tally;
use std::fmt;

// Whether the joined text follows the pattern, its bytes and line ends, and the first slot at whose
// end nothing that follows could make it do so.
#[derive(Clone, Copy, PartialEq, Eq, Debug)]
pub struct Report {
    pub verdict: bool,
    pub totals: Tally,
    pub culprit: Option<usize>,
}

impl fmt::Display for Report {
    ghost output = { λ r. Some (lines r) };

    fn fmt<W: fmt::Write>(&self, f: &mut fmt::Formatter<W>) -> fmt::Result {
        let verdict = yes_or_no(self.verdict);
        let bytes = self.totals.bytes;
        let lines = self.totals.lines;
        write!(
            f,
            "verdict {verdict}\nbytes {bytes}\nlines {lines}\nlost at "
        )?;
        match self.culprit {
            Some(slot) => write!(f, "{slot}"),
            None => f.write_str("none"),
        }
    }
}

fn yes_or_no(b: bool) -> &'static str
    ensures { result.now ≡ answer b }
{
    if b { "yes" } else { "no" }
}
