// Reading a pattern.
use pattern::Pattern;

// Names, each on a line of its own: a capital letter, small letters, a line end.
const NAMES: &[u8] = b"([A-Z][a-z]*\n)*";

// The same with a slip: from z to a is no range.
const SLIP: &[u8] = b"([A-Z][z-a]*\n)*";

// The record of the pattern that was read. A refusal has a number, a layer and a place, here how
// many of the bytes could still have become a well-written pattern; it leaves the record with the
// empty pattern, ready to be read into again.
pub(crate) fn read_names(rt: &impl Print) -> anyhow::Result<Pattern> {
    let mut pattern = Pattern::new();
    if let Err(fault) = pattern.read(SLIP) {
        println!(rt; "{fault}")?;
    }
    let places = pattern.read(NAMES)?;
    println!(rt; "read, with {places} places")?;
    Ok(pattern)
}
