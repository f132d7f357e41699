// Which goes first, reader or grace period: Rcu decided, the first precedence table found, and pb enlarged by a table.
#![tactic(auto)]

mod balances;
mod deciding;
mod enlarging;
mod kinds;

pub use balances::{Row, Sheet, best};
pub use deciding::first_table;
pub use enlarging::enlarged_pb;
pub use kinds::FirstTable;
