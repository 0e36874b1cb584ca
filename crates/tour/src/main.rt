// A tour of the library, step by step: a pattern, its machines, a roll, and a machine of one's own.
// docs/library.md walks through these files in this order.
#![tactic(auto)]

use machines::build;

mod answers;
mod by_starts;
mod few_lines;
mod filing;
mod lines;
mod names;
mod reading;

fn run(rt: &impl Print) -> anyhow::Result<()> {
    let pattern = reading::read_names(rt)?;
    let machine = build(&pattern);
    names::roll_of_names(rt, &machine)?;
    by_starts::roll_by_starts(rt, machine)?;
    lines::roll_of_few_lines(rt)
}

fn main(rt: HostRuntime) -> anyhow::Result<()> {
    run(&rt)
}
