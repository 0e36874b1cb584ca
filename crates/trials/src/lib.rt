// Trials of the library: small judging machines, and tests.
#![tactic(auto)]

#[cfg(test)]
mod bundles;
#[cfg(test)]
mod decoding;
mod filing;
#[cfg(test)]
mod rolls;
pub mod thirds;
pub mod zeroless;
