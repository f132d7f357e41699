// Relations on at most 64 events, and the algebra that a memory model is written in.
#![tactic(auto)]

mod algebra;
mod kinds;
mod pairs;
mod steps;

pub use kinds::Relation;
