// Searches in a relation: a shortest cycle, or an order of its events.
#![tactic(auto)]

mod cycles;
mod kinds;
mod orders;

pub use cycles::shortest_cycle;
pub use kinds::{Cycle, Order};
pub use orders::order;
