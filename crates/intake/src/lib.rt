// From standard input to a sealed case: what the programs on case texts begin with.
#![tactic(auto)]

pub mod input;
pub mod kinds;
pub mod reading;
pub mod refusals;

pub use input::{ROOM, fill};
pub use kinds::{Refusal, Tables};
pub use reading::read_sealed;
