// A shortest round of Rcu, with the mark of each of its steps.
#![tactic(auto)]

mod kinds;
mod layers;
mod marks;
mod search;

pub use kinds::{Mark, Round};
pub use search::shortest_round;
