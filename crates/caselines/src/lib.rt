// The lines of a case text: what each says, and reading one.
#![tactic(auto)]

pub mod fields;
pub mod lines;
pub mod reading;
pub mod words;

pub use lines::{Letter, Line};
