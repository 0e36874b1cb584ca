// Patterns as they are read: each is granted or refused, and put together.
#![tactic(auto)]

pub mod assembly;
pub mod bytes;
mod character;
mod class;
mod count;
mod cursor;
mod draft;
mod member;
mod reader;
mod reading;
pub mod record;
mod repeat;
mod sign;
mod spelling;

pub use crate::record::Pattern;
