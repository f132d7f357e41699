// What was asked and answered, in words.
use executions::{Event, Fault, Relation, Sort};
use std::{fmt, io};
use tables::OpenCase;

// An event, by its sort's name, or by a number that names none.
#[derive(Clone, Copy)]
pub(crate) struct Named(pub(crate) Event);

impl fmt::Display for Named {
    fn fmt<W: fmt::Write>(&self, f: &mut fmt::Formatter<W>) -> fmt::Result {
        let Event {
            thread,
            sort,
            place,
        } = self.0;
        match Sort::try_from(sort) {
            Ok(known) => write!(f, "{known}, thread {thread}, place {place}"),
            Err(_) => write!(f, "sort {sort}, thread {thread}, place {place}"),
        }
    }
}

// A tie from one event to another, by the numbers that a call is handed: a relation too may be a number that names none.
#[derive(Clone, Copy)]
pub(crate) struct Tie {
    pub(crate) relation: u32,
    pub(crate) first: u32,
    pub(crate) second: u32,
}

impl Tie {
    pub(crate) fn of(relation: Relation, first: u32, second: u32) -> Tie {
        Tie {
            relation: relation.number() as u32,
            first,
            second,
        }
    }
}

impl fmt::Display for Tie {
    fn fmt<W: fmt::Write>(&self, f: &mut fmt::Formatter<W>) -> fmt::Result {
        let Tie {
            relation,
            first,
            second,
        } = *self;
        match Relation::try_from(relation) {
            Ok(known) => write!(f, "{known} {first} {second}"),
            Err(_) => write!(f, "relation {relation} {first} {second}"),
        }
    }
}

// The number of an event that a case took.
#[derive(Clone, Copy)]
struct EventNumber(usize);

impl fmt::Display for EventNumber {
    fn fmt<W: fmt::Write>(&self, f: &mut fmt::Formatter<W>) -> fmt::Result {
        write!(f, "event {}", self.0)
    }
}

// What a call was asked, and what it answered.
fn tell<Q: fmt::Display + Drop, A: fmt::Display + Drop>(
    rt: &impl Print,
    asked: Q,
    answer: Result<A, Fault>,
) -> io::Result<()> {
    match answer {
        Ok(done) => println!(rt; "{asked}: {done}"),
        Err(fault) => println!(rt; "{asked}: refused, {fault}"),
    }
}

pub(crate) fn opened(
    rt: &impl Print,
    tables: &str,
    answer: Result<OpenCase, Fault>,
) -> io::Result<()> {
    tell(
        rt,
        format_args!("open {tables}"),
        answer.map(|_| "a blank case"),
    )
}

pub(crate) fn entered(
    rt: &impl Print,
    event: Event,
    answer: Result<usize, Fault>,
) -> io::Result<()> {
    let asked = Named(event);
    tell(rt, format_args!("enter {asked}"), answer.map(EventNumber))
}

pub(crate) fn tied(
    rt: &impl Print,
    call: &str,
    asked: Tie,
    answer: Result<(), Fault>,
) -> io::Result<()> {
    tell(rt, format_args!("{call} {asked}"), answer.map(|_| "done"))
}
