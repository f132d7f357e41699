// Judging the case of a text, and telling the ruling.
#![tactic(auto)]

pub mod lines;
pub mod printing;
pub mod texts;

pub use lines::Told;
pub use printing::{decline, tell};
pub use texts::{Judgment, judge_text};
