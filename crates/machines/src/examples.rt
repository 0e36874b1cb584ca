// The patterns that were worked out by hand, as theorems.
ghost use Rattle.std.specs.Prelude.{◌≡◌, length};
ghost use Rattle.machines.specs.Examples.{claims, Examples};

// How many claims are made of them; each holds.
pub fn worked_examples() -> usize
    ensures value { result ≡ length claims }
    ensures stand { Examples }
{
    const CLAIMS: usize = 30;
    CLAIMS
}
