// Bundles: a pattern and the numbered strips of a text in one run of bytes; docs/bundles.md has the layout.
#![tactic(auto)]

mod bytes;
pub mod check;
pub mod decode;
pub mod enough;
pub mod filing;
pub mod report;
pub mod walk;
