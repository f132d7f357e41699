// Calls and answers in words.
use executions::Event;
use rulings::Verdict;
use runs::{Answer, Call};
use std::fmt;

#[derive(Clone, Copy)]
pub(crate) struct Asked(pub(crate) Call);

impl fmt::Display for Asked {
    fn fmt<W: fmt::Write>(&self, f: &mut fmt::Formatter<W>) -> fmt::Result {
        match self.0 {
            Call::Enter(
                Event {
                    thread,
                    sort,
                    place,
                },
            ) => write!(f, "enter {thread} {sort} {place}"),
            Call::Tie(relation, first, second) => write!(f, "tie {relation} {first} {second}"),
            Call::Untie(relation, first, second) => write!(f, "untie {relation} {first} {second}"),
            Call::Seal => write!(f, "seal"),
            Call::Reopen => write!(f, "reopen"),
            Call::Judge(rows) => write!(f, "judge on {rows} rows"),
        }
    }
}

#[derive(Clone, Copy)]
pub(crate) struct Answered<'a>(pub(crate) &'a Answer);

impl<'a> fmt::Display for Answered<'a> {
    fn fmt<W: fmt::Write>(&self, f: &mut fmt::Formatter<W>) -> fmt::Result {
        match self.0 {
            Answer::Entered(number) => write!(f, "event {number}"),
            Answer::Done => write!(f, "done"),
            Answer::Refused(fault) => write!(f, "refused, {fault}"),
            Answer::Ruled(ruling, _) => write!(f, "{}", Ruled(ruling.verdict)),
            Answer::OtherState => write!(f, "not a call of this state"),
        }
    }
}

#[derive(Clone, Copy)]
struct Ruled(Verdict);

impl fmt::Display for Ruled {
    fn fmt<W: fmt::Write>(&self, f: &mut fmt::Formatter<W>) -> fmt::Result {
        match self.0 {
            Verdict::Allowed => write!(f, "allowed"),
            Verdict::Forbidden(breach) => write!(f, "forbidden {breach}"),
        }
    }
}
