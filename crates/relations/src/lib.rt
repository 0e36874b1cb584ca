// Sets of a machine's states, one bit to a state, and relations between the states.
#![tactic(auto)]

pub mod masks;
pub mod placeno;
pub mod relation;
