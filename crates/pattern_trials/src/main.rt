// Reads a pattern from each line of the input and prints how it is read or refused.
#![tactic(auto)]

use pattern::Pattern;
use std::io;

fn show(rt: &HostRuntime, pattern: &mut Pattern, line: &str) -> io::Result<()> {
    match pattern.read(line.as_bytes()) {
        Ok(places) => println!(rt; "places {places}: {line}"),
        Err(fault) => println!(rt; "{fault}: {line}"),
    }
}

fn main(rt: HostRuntime) -> io::Result<()> {
    let mut pattern = Pattern::new();
    for line in rt.lines(rt.alloc()) {
        let line = line?;
        show(&rt, &mut pattern, line.as_str())?;
    }
    Ok(())
}
