// Runs the machines and another matcher side by side: a line of input is a pattern, a tab and a text,
// and each is answered with what all say, the machines for every way of cutting the text, and for a roll
// that held other strips before.
#![tactic(auto)]

use anyhow::anyhow;
use std::io::{BufRead, BufReader};

mod beside;
mod rolls;
mod spans;

fn main(rt: HostRuntime) -> anyhow::Result<()> {
    for line in BufReader::new(rt.alloc(), rt.stdin())?.lines(rt.alloc()) {
        let line = line?;
        let Some((pattern, text)) = line.as_str().split_once('\t') else {
            return Err(anyhow!("a line without a tab"));
        };
        let said = beside::compare(pattern.as_bytes(), text.as_bytes());
        println!(rt; "{said}")?;
    }
    Ok(())
}
