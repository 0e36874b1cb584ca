// The start machine, over any deterministic machine of at most 64 states. It knows no pattern.
#![tactic(auto)]

pub mod automaton;
pub mod build;
pub mod machine;
pub mod startno;
pub mod statemap;

pub use crate::automaton::Automaton;
pub use crate::build::{MOST_ROWS, build_starts};
pub use crate::machine::StartMachine;
pub use crate::startno::StartNo;
