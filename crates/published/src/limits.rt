// The limits of a case: how many events it holds, and which threads and places there are.
use crate::kinds::Limit;
use executions::{Cause, Event, Fault, Layer, Sort};
use tables::OpenCase;

// What stands on each side of the three limits.
pub(crate) fn limits() -> [Limit; 6] {
    [
        limit("64th event", 63, read_at(1, 1), Ok(63)),
        limit(
            "65th event",
            64,
            read_at(1, 1),
            refused(Cause::TooManyEvents, 64),
        ),
        limit("thread 8", 0, read_at(8, 1), Ok(0)),
        limit("thread 9", 0, read_at(9, 1), refused(Cause::OutOfRange, 0)),
        limit("place 16", 0, read_at(1, 16), Ok(0)),
        limit("place 17", 0, read_at(1, 17), refused(Cause::OutOfRange, 0)),
    ]
}

fn limit(name: &'static str, before: usize, event: Event, answer: Result<usize, Fault>) -> Limit {
    Limit {
        name,
        before,
        event,
        answer,
    }
}

fn read_at(thread: u8, place: u8) -> Event {
    Event::of(thread, Sort::ReadOnce, place)
}

// How entering an event declines.
fn refused(cause: Cause, place: u32) -> Result<usize, Fault> {
    Err(Layer::Entry.fault(cause, place))
}

// Enters an event behind so many others.
pub(crate) fn enter_after(before: usize, event: Event) -> Result<usize, Fault> {
    let mut events = [Event::UNUSED; 64];
    let mut ties = [0u64; 384];
    let mut case = OpenCase::open(&mut events, &mut ties)?;
    for _ in 0..before {
        let _ = case.enter(&mut events, &ties, read_at(1, 1))?;
    }
    case.enter(&mut events, &ties, event)
}
