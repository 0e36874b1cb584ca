// Tests of the tables that are built of a pattern, and of the machines over them: counts, tables and
// verdicts that are worked out by hand, what classes take, and the legs of long texts.
#![tactic(auto)]

#[cfg(test)]
mod classes;
#[cfg(test)]
mod set;
#[cfg(test)]
mod standing;
#[cfg(test)]
mod start;
