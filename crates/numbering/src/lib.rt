// The numbering of what is reached: points, from a first one by a next one for each byte, numbered in
// the order in which they are first met (in the field: a breadth-first search). It knows no pattern.
#![tactic(auto)]

pub mod entry;
pub mod search;
pub mod space;
