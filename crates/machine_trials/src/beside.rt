// One pattern and one text: what the machines say of it, beside the other matcher. A build that is refused
// fails the trial, so every pattern has to be small enough for the tables.
use crate::rolls::Trial;
use crate::spans;
use bundle::report::Report;
use fault::Fault;
use folding::fold::Folding;
use machines::set::build::{MOVES, SETS, build_sets};
use machines::{PlaceMachine, SetMachine, build};
use pattern::Pattern;
use starts::StartMachine;
use starts::build::{MOST_ROWS, build_starts};
use std::fmt;

// What all say of a text: that it follows the pattern, that it doesn't, or not the same; or that a
// call was refused, which is a line to print as the others are.
#[derive(Clone, Copy)]
pub(crate) enum Comparison {
    Yes,
    No,
    Differ,
    Refused,
}

impl fmt::Display for Comparison {
    fn fmt<W: fmt::Write>(&self, f: &mut fmt::Formatter<W>) -> fmt::Result {
        f.write_str(match self {
            Comparison::Yes => "yes",
            Comparison::No => "no",
            Comparison::Differ => "they differ",
            Comparison::Refused => "refused",
        })
    }
}

// Whether the start machine says the same.
fn by_starts(set: &SetMachine, trial: &Trial, report: Report) -> Result<bool, Fault> {
    let mut maps = [0; 64 * MOST_ROWS];
    let mut moves = [0; 256 * MOST_ROWS];
    let count = build_starts(set, &mut maps, &mut moves)?;
    let start = StartMachine::new(set, count, &maps, &moves);
    Ok(trial.under(&start, &mut [start.empty(); 8])? == Some(report))
}

// Whether the set machine does, and the start machine over it.
fn by_sets(place: PlaceMachine, trial: &Trial, report: Report) -> Result<bool, Fault> {
    let mut sets = [0; SETS];
    let mut moves = [0; MOVES];
    let count = build_sets(&place, &mut sets, &mut moves)?;
    let set = SetMachine::new(place, count, &sets, &moves);
    Ok(trial.under(&set, &mut [set.empty(); 8])? == Some(report) && by_starts(&set, trial, report)?)
}

fn run(bytes: &[u8], text: &[u8]) -> Result<Comparison, Fault> {
    let mut pattern = Pattern::new();
    pattern.read(bytes)?;
    let place = build(&pattern);
    let verdict = spans::matches(bytes, text);
    let trial = Trial { text, verdict };
    let alike = match trial.under(&place, &mut [place.empty(); 8])? {
        Some(report) => by_sets(place, &trial, report)?,
        None => false,
    };
    Ok(match (alike, verdict) {
        (false, _) => Comparison::Differ,
        (true, true) => Comparison::Yes,
        (true, false) => Comparison::No,
    })
}

pub(crate) fn compare(bytes: &[u8], text: &[u8]) -> Comparison {
    run(bytes, text).unwrap_or(Comparison::Refused)
}
