// What the measuring program asks of a pattern's start machine.
ghost use Rattle.std.specs.Prelude.{ℕ, ◌↔◌, Bool, List, Result};
ghost use Rattle.fault.specs.declared.Fault.{Fault};
ghost use Rattle.folding.specs.Texts.{Bytes};
ghost use Rattle.notation.specs.Expressions.{Regex};
ghost use Rattle.notation.specs.Meaning.{Matches};

use fault::Fault;
use folding::fold::Judging;
use machines::SetMachine;
use starts::StartMachine;

// A question that the machine's set of texts answers, so that it has one answer under an expression.
pub(crate) trait Question {
    ghost comes: { Self → Regex → Result Bool Fault → Type 0 };

    fn put<'m>(&self, machine: &StartMachine<'m, SetMachine<'m>>) -> Result<bool, Fault>
        ensures comes { (e : Regex)
            → ((w : List ℕ) → Bytes w → ⟦<StartMachine<'m, SetMachine<'m>> as Judging>⟧.means machine.now w ↔ Matches e w)
            → comes self.now e result };
}
