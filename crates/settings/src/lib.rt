// What the grace-period law is asked about: a setting, and the relations and sets that the law is written in.
#![tactic(auto)]

mod kinds;
mod parts;
mod words;

pub use kinds::Setting;
pub use words::meets;
