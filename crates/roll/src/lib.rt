// Rolls: one long text in strips, kept by the strips' legs and tallies, over any judging machine.
#![tactic(auto)]

pub mod feeding;
mod filing;
pub mod lent;
mod opening;
mod questions;
pub mod roll;
pub mod slot;
pub mod strip;

pub use crate::lent::{Lent, LentMut};
pub use crate::roll::{MOST_SLOTS, Roll};
pub use crate::strip::{Returned, Strip};
