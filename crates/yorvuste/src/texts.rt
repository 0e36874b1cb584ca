// The text of an answer, with no allocation. `Display` of a report and of a fault writes the same, but
// its contract leaves open whether a writer that has room for all of it gets all of it.
ghost use Rattle.std.specs.Prelude.{◌≡◌, ◌+◌, ◌≤◌, ◌++◌, decimal, length};
ghost use Rattle.arrayvec.specs.ArrayString.{array_string_len};
ghost use Rattle.bundle.specs.Lines.{answer, lines};
ghost use Rattle.yorvuste.specs.Texts.{Answered, Laid};
ghost use Rattle.fault.specs.Lines.{line, word};

use crate::YORVUSTE_ROOM;
use arrayvec::ArrayString;
use bundle::check::check;
use bundle::report::Report;
use fault::{Fault, Layer};
use itoa::Buffer;

type Text = ArrayString<YORVUSTE_ROOM>;

pub(crate) fn checked(input: &[u8], into: &mut [u8]) -> usize
    ensures answered { Answered input.now into.old result into.new }
    ensures short { result ≤ 256 }
{
    match check(input) {
        Ok(report) => lay(report_text(report).as_str(), into),
        Err(fault) => lay(fault_text(fault).as_str(), into),
    }
}

// Lays a text at the head of what is lent, if there is room, and answers the text's length.
fn lay(text: &str, into: &mut [u8]) -> usize
    ensures laid { Laid text.now into.old result into.new }
{
    let bytes = text.as_bytes();
    if bytes.len() <= into.len() {
        into[..bytes.len()].copy_from_slice(bytes);
    }
    bytes.len()
}

fn report_text(report: Report) -> Text
    ensures value { result.bytes ≡ lines report }
{
    let mut text = Text::new();
    text.push_str("verdict ");
    text.push_str(yes_or_no(report.verdict));
    text.push_str("\nbytes ");
    push_number(&mut text, u64::from(report.totals.bytes));
    text.push_str("\nlines ");
    push_number(&mut text, u64::from(report.totals.lines));
    text.push_str("\nlost at ");
    match report.culprit {
        Some(slot) => push_number(&mut text, slot as u64),
        None => text.push_str("none"),
    }
    text
}

fn fault_text(fault: Fault) -> Text
    ensures value { result.bytes ≡ line fault }
{
    let mut text = Text::new();
    text.push_str("refused ");
    push_number(&mut text, u64::from(fault.refusal.number()));
    text.push_str(" layer ");
    text.push_str(word_of(fault.layer));
    text.push_str(" place ");
    push_number(&mut text, fault.place as u64);
    text
}

fn push_number(text: &mut Text, n: u64)
    requires room { array_string_len text.old + 40 ≤ 256 }
    ensures bytes { text.new.bytes ≡ text.old.bytes ++ decimal n }
    ensures short { array_string_len text.new ≤ array_string_len text.old + 40 }
{
    text.push_str(Buffer::new().format(n));
}

fn yes_or_no(b: bool) -> &'static str
    ensures value { result.now ≡ answer b }
    ensures short { length result.now ≤ 3 }
{
    if b { "yes" } else { "no" }
}

fn word_of(layer: Layer) -> &'static str
    ensures value { result.now ≡ word layer }
    ensures short { length result.now ≤ 7 }
{
    layer.word()
}
