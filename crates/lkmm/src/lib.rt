// The Linux-kernel memory model: its derived relations and its rules.
#![tactic(auto)]

mod atomicity;
mod communications;
mod fences;
mod kinds;
mod models;
mod parts;
mod preserved;
mod propagation;

pub use atomicity::SplitRmw;
pub use kinds::Model;
