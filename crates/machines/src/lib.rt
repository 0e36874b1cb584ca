// The machines that are built from a pattern, a file and a folder to each.
#![tactic(auto)]

// The place machine: `place/build.rt` builds it.
pub mod place;

// The set machine: `set/build.rt` builds its tables.
pub mod set;

// What is claimed of patterns that were worked out by hand.
pub mod examples;

pub use crate::place::PlaceMachine;
pub use crate::place::build::build;
pub use crate::set::SetMachine;
pub use crate::set::build::{MOVES, SETS, build_sets};
