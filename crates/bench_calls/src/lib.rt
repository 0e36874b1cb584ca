// What the measuring program in bench/ calls besides the library's calls from C: each kind of machine by
// itself, on a text that counts any number of times over, and a roll that is corrected.
#![tactic(auto)]

ghost use Rattle.std.specs.Prelude.{◌≡◌};
ghost use Rattle.bench_calls.specs.Answers.{Says, Verdict, Corrected, code as code_of, over};
ghost use Rattle.law.specs.Order.{AfterReading, AfterSets, AfterStarts};
ghost use Rattle.notation.specs.Meaning.{Matches};

mod building;
mod correction;
mod question;
mod repetition;

use crate::building::{under_place, under_set, under_start};
use crate::correction::Correction;
use crate::repetition::Repetition;
use fault::Fault;
use starts::MOST_ROWS;

// As many as `rollcheck` has.
const FEW_ROWS: usize = 96;

fn code(outcome: Result<bool, Fault>) -> u32
    ensures value { result ≡ code_of outcome }
{
    match outcome {
        Ok(verdict) => u32::from(verdict),
        Err(fault) => u32::from(fault.refusal.number()) + 1,
    }
}

// Under the place machine.
#[unsafe(no_mangle)]
pub extern "C" fn bench_place(pattern: &[u8], text: &[u8], times: u32) -> u32
    ensures says { Says (AfterReading pattern.now (λ e. Verdict (Matches e) (over times text.now))) result }
{
    code(under_place(pattern, text, times))
}

// Under the set machine.
#[unsafe(no_mangle)]
pub extern "C" fn bench_set(pattern: &[u8], text: &[u8], times: u32) -> u32
    ensures says { Says (AfterReading pattern.now (AfterSets (λ e. Verdict (Matches e) (over times text.now)))) result }
{
    code(under_set(pattern, text, times))
}

// Under the start machine, with 512 rows: as many as the number of a start can name.
#[unsafe(no_mangle)]
pub extern "C" fn bench_start(pattern: &[u8], text: &[u8], times: u32) -> u32
    ensures says { Says (AfterReading pattern.now (AfterSets (AfterStarts 512 (λ e. Verdict (Matches e) (over times text.now))))) result }
{
    let mut maps = [0; 64 * MOST_ROWS];
    let mut moves = [0; 256 * MOST_ROWS];
    let repetition = Repetition { text, times };
    code(under_start(pattern, MOST_ROWS, &mut maps, &mut moves, &repetition))
}

// Under the start machine, with 96 rows.
#[unsafe(no_mangle)]
pub extern "C" fn bench_small_start(pattern: &[u8], text: &[u8], times: u32) -> u32
    ensures says { Says (AfterReading pattern.now (AfterSets (AfterStarts 96 (λ e. Verdict (Matches e) (over times text.now))))) result }
{
    let mut maps = [0; 64 * FEW_ROWS];
    let mut moves = [0; 256 * FEW_ROWS];
    let repetition = Repetition { text, times };
    code(under_start(pattern, FEW_ROWS, &mut maps, &mut moves, &repetition))
}

// Under the start machine, with 512 rows: a roll of 128 slots into which the text is filed in strips of
// 8,000 bytes, as far as they reach; then the head of another strip, as long as these, is fed anew, filed
// into one of the slots, and the verdict asked: once, and so many times more.
#[unsafe(no_mangle)]
pub extern "C" fn bench_correct(
    pattern: &[u8],
    text: &[u8],
    slot: usize,
    strip: &[u8],
    more: u32,
) -> u32
    ensures says { Says (AfterReading pattern.now (AfterSets (AfterStarts 512 (λ e. Corrected (Matches e) text.now slot strip.now)))) result }
{
    let mut maps = [0; 64 * MOST_ROWS];
    let mut moves = [0; 256 * MOST_ROWS];
    let correction = Correction {
        text,
        slot,
        strip,
        more,
    };
    code(under_start(pattern, MOST_ROWS, &mut maps, &mut moves, &correction))
}
