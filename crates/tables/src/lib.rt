// The caller's two tables and the calls that build a case in them: open, enter, tie and untie, seal and reopen.
// The case itself is a few plain numbers; the tables are handed to each call.
#![tactic(auto)]

pub mod calls;
pub mod kinds;
pub mod sealing;
pub mod source;

pub use kinds::{OpenCase, SealedCase, TableSource};
