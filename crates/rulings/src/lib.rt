// Rulings: judge, and the sheet that it fills.
#![tactic(auto)]

pub mod judging;
pub mod kinds;
pub mod names;
mod pages;
mod questions;
mod reporting;
mod rounds_of;
pub mod shapes;
mod sheets;

pub use judging::judge;
pub use kinds::{Breach, Report, Reports, Rule, Ruling, SheetRow, Verdict};
pub use shapes::Shape;
