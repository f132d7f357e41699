// Runs of the bench: lists of calls on one case and its two tables.
#![tactic(auto)]

mod answers;
pub mod kinds;
mod lent;
pub mod running;
mod steps;

pub use kinds::{Answer, Call, State};
pub use running::run;
