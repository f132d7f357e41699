// The cases whose texts are timed: 64 events with more and more ties, up to the most that a sealed case can have.
// Events are walked by number, since a tie names them so.
use casewriter::{count_ties, front, write};
use executions::{Event, Fault, Relation, Sort};
use sources::Snapshot;
use tables::{OpenCase, SealedCase};
use wellformed::check;

// One initial write, then reads and then writes of the same place in one thread. With as many reads as this the text is longest.
const READS: u32 = 43;

const EVENTS: u32 = 64;

// Room for every text.
pub(crate) const ROOM: usize = 65536;

// How many events of a thread an rmw tie leads over: the last reads are tied to the writes.
const APART: u32 = 20;

// A sealed case with the two tables that it is built in.
#[derive(Drop)]
pub(crate) struct Built {
    pub(crate) case: SealedCase,
    pub(crate) events: [Event; 64],
    pub(crate) ties: [u64; 384],
}

impl Built {
    // The case with all ties of the relations up to one of them.
    pub(crate) fn up_to(last: Relation) -> Option<Built> {
        let mut events = [Event::UNUSED; 64];
        let mut ties = [0u64; 384];
        let mut case = OpenCase::open(&mut events, &mut ties).ok()?;
        for number in 0..EVENTS {
            let _ = case.enter(&mut events, &ties, event(number)).ok()?;
        }
        tie_up_to(&case, &events, &mut ties, last);
        let case = case.seal(&events, &ties).ok()?;
        Some(Built { case, events, ties })
    }

    // Its text, written into a buffer.
    pub(crate) fn text<'b>(&self, buffer: &'b mut [u8; ROOM]) -> &'b [u8] {
        let bytes = write(&self.case, &self.events, &self.ties, buffer).unwrap_or(0);
        front(buffer, bytes)
    }

    // The case as the check copies it.
    pub(crate) fn checked(&self) -> Result<Snapshot, Fault> {
        let source = self.case.source(&self.events, &self.ties)?;
        check(&source)
    }

    // How many ties it has.
    pub(crate) fn tied(&self) -> u32 {
        self.checked().map_or(0, |copy| count_ties(&copy))
    }
}

fn tie_up_to(case: &OpenCase, events: &[Event], ties: &mut [u64], last: Relation) {
    for relation in Relation::ALL {
        tie_all(case, events, ties, relation);
        if relation == last {
            break;
        }
    }
}

// The event of a number, in the longest words.
fn event(number: u32) -> Event {
    let (thread, sort) = if number == 0 {
        (0, Sort::WriteOnce)
    } else if number <= READS {
        (1, Sort::ReadAcquire)
    } else {
        (1, Sort::WriteRelease)
    };
    Event::of(thread, sort, 16)
}

// Every tie of a relation that is wanted and fits.
fn tie_all(case: &OpenCase, events: &[Event], ties: &mut [u64], relation: Relation) {
    for a in 0..EVENTS {
        tie_row(case, events, ties, relation, a);
    }
}

fn tie_row(case: &OpenCase, events: &[Event], ties: &mut [u64], relation: Relation, a: u32) {
    for b in 0..EVENTS {
        if is_wanted(relation, a, b) {
            let _ = case.tie(events, ties, u32::from(relation.number()), a, b);
        }
    }
}

// All reads take their value from the last write, and coherence rises.
fn is_wanted(relation: Relation, a: u32, b: u32) -> bool {
    match relation {
        Relation::Rf => a == EVENTS - 1,
        Relation::Rmw => b > APART && b - APART == a,
        _ => a < b,
    }
}
