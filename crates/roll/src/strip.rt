// Open strips.
ghost use Rattle.std.specs.Prelude.{◌≡◌, ◌≤◌};
ghost use Rattle.roll.specs.Sizes.{longest};

use fault::Fault;
use folding::tally::Tally;

// A strip that is being fed: the leg, the tally and the byte count of its text so far. It is
// neither copied nor cloned, so that what has been filed cannot be fed or filed again.
#[derive(Drop)]
pub struct Strip<L> {
    pub(crate) leg: L,
    pub(crate) tally: Tally,
    pub(crate) fed: usize,
    ghost short: { fed ≤ longest },
}

// What a refused filing answers: the fault, and the strip as it was.
#[derive(Drop)]
pub struct Returned<L> {
    pub fault: Fault,
    pub strip: Strip<L>,
}

impl<L: Drop> From<Returned<L>> for Fault {
    ghost from_gives = { λ r f. f ≡ r.fault };

    fn from(returned: Returned<L>) -> Fault {
        returned.fault
    }
}
