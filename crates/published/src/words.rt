// Answers in words.
use executions::Fault;
use rulings::kinds::{Ruling, Verdict};
use std::fmt;

// What came of a text.
#[derive(Clone, Copy)]
pub(crate) struct Ruled(pub(crate) Option<Ruling>);

impl fmt::Display for Ruled {
    fn fmt<W: fmt::Write>(&self, f: &mut fmt::Formatter<W>) -> fmt::Result {
        match self.0.map(|ruling| ruling.verdict) {
            None => write!(f, "refused"),
            Some(Verdict::Allowed) => write!(f, "allowed"),
            Some(Verdict::Forbidden(breach)) => {
                write!(f, "forbidden {} {}", breach.rule, breach.length)
            }
        }
    }
}

// What came of an entry.
#[derive(Clone, Copy)]
pub(crate) struct Entry(pub(crate) Result<usize, Fault>);

impl fmt::Display for Entry {
    fn fmt<W: fmt::Write>(&self, f: &mut fmt::Formatter<W>) -> fmt::Result {
        match self.0 {
            Ok(number) => write!(f, "event {number}"),
            Err(fault) => write!(f, "refused {} place {}", fault.number(), fault.place),
        }
    }
}
