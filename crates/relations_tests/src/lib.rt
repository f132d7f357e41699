// Expressions of a memory model, proved from the contracts of the relations' operations alone, and tests at the edges of the range.
#![tactic(auto)]

mod model;
#[cfg(test)]
mod tests;

pub use model::{coherent, from_reads, happens_before, stale_read};
