// The case text: reading it into tables, writing it, and the text as a case source.
#![tactic(auto)]

pub mod kinds;
pub mod reading;
pub mod steps;

pub use kinds::TextFault;
