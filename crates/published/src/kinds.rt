// What is published of an execution, and what is asked at a limit of a case.
ghost use Rattle.std.specs.Prelude.{Some};
ghost use Rattle.std.specs.Fmt.{padded};
ghost use Rattle.published.specs.Outcomes.{outcome_word};

use executions::{Event, Fault};
use std::fmt;

// A verdict in the words of the published table.
#[derive(Clone, Copy, PartialEq, Eq, Debug)]
pub enum Outcome {
    Allow,
    Forbid,
}

impl fmt::Display for Outcome {
    ghost output = { λ outcome. Some (outcome_word outcome) };

    ghost styled_output = { λ outcome spec. Some (padded spec (outcome_word outcome)) };

    fn fmt<W: fmt::Write>(&self, f: &mut fmt::Formatter<W>) -> fmt::Result {
        f.pad(match self {
            Outcome::Allow => "Allow",
            Outcome::Forbid => "Forbid",
        })
    }
}

// An execution by its name, with its published outcome and its case text.
pub type Published = (&'static str, Outcome, &'static [u8]);

// An event at a limit of what a case holds, how many events are there before it, and what its entry is to answer.
#[derive(Clone, Copy)]
pub struct Limit {
    pub name: &'static str,
    pub before: usize,
    pub event: Event,
    pub answer: Result<usize, Fault>,
}
