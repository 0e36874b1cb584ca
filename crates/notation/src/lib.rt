// The notation of patterns: how they are written, what they mean, and how they are refused.
#![tactic(auto)]

pub mod names;
mod tables;
