// Texts by their summaries: the two interfaces, the tally, and the keeping of cells.
#![tactic(auto)]

pub mod cells;
pub mod fold;
pub mod tally;
