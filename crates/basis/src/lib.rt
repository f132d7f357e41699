// The basis of a case: the relations and sets that a memory model starts from, computed once.
#![tactic(auto)]

mod bases;
mod groups;
mod kinds;
mod orders;
mod sections;

pub use kinds::Base;
