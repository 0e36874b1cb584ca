// A text many times over, so that the time of a machine is told apart from the time of its building.
ghost use Rattle.std.specs.Prelude.{Decides};
ghost use Rattle.bench_calls.specs.Answers.{Verdict, over};
ghost use Rattle.folding.specs.Texts.{Bytes};
ghost use Rattle.notation.specs.Meaning.{Matches};

use crate::question::Question;
use fault::Fault;
use folding::fold::Judging;
use machines::SetMachine;
use starts::StartMachine;

#[derive(Clone, Copy)]
pub(crate) struct Repetition<'a> {
    pub(crate) text: &'a [u8],
    pub(crate) times: u32,
}

impl<'a> Question for Repetition<'a> {
    ghost comes = { λ q e r. Verdict (Matches e) (over q.times q.text.now) r };

    fn put<'m>(&self, machine: &StartMachine<'m, SetMachine<'m>>) -> Result<bool, Fault> {
        Ok(judged(machine, self.text, self.times))
    }
}

// Whether the text, so many times in a row, is meant.
pub(crate) fn judged<M: Judging>(machine: &M, text: &[u8], times: u32) -> bool
    ensures verdict { Decides result (M.means machine.now (over times text.now)) }
    ensures bytes { Bytes (over times text.now) }
{
    let mut leg = machine.empty();
    for _ in 0..times {
        leg = machine.extend(&leg, text);
    }
    machine.accepts(&leg)
}
