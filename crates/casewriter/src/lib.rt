// Writing the text of a case.
#![tactic(auto)]

pub mod bytes;
pub mod lines;
pub mod texts;
pub mod ties;
pub mod whole;

pub use texts::{count_ties, write_snapshot};
pub use whole::{front, write};
