// A candidate execution: the sorts of its events, the ties between them, and the faults by which the bench declines.
#![tactic(auto)]

pub mod events;
pub mod faults;
pub mod sorts;
pub mod ties;

pub use events::Event;
pub use faults::{Cause, Fault, Layer};
pub use sorts::{Sort, UnknownSort};
pub use ties::{Relation, UnknownRelation};
