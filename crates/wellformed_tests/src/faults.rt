// Each fault of the check, and which comes first.
use crate::desk::Desk;
use crate::repeated::Repeated;
use executions::{Cause, Event, Fault, Layer, Relation, Sort};
use sources::{CaseSource, Cut, Lowered};
use std::process::Abort;
use std::test::Fail;
use tables::SealedCase;
use wellformed::check as check_case;

fn fault(cause: Cause, place: u32) -> Fault {
    Layer::Check.fault(cause, place)
}

// What the check answers of a source, without the copy.
fn checked<S: CaseSource>(source: &S) -> Result<(), Fault> {
    check_case(source).map(|_| ())
}

// What the check answers of one event, so many times.
fn repeated(event: Event, count: usize) -> Result<(), Fault> {
    checked(&Repeated { event, count })
}

// More than 64 events: one too many, many too many, and before an event out of range.
#[test]
fn too_many_events(rt: HostRuntime) {
    let fence = Event::of(1, Sort::Blank, 0);
    let many = fault(Cause::TooManyEvents, 64);
    assert_eq!(rt; repeated(fence, 0), Ok(()));
    assert_eq!(rt; repeated(fence, 64), Ok(()));
    assert_eq!(rt; repeated(fence, 65), Err(many));
    assert_eq!(rt; repeated(fence, 1000), Err(many));
    assert_eq!(rt; repeated(Event::of(9, Sort::Blank, 0), 65), Err(many));
    assert_eq!(rt;
        repeated(Event::of(9, Sort::Blank, 0), 64),
        Err(fault(Cause::OutOfRange, 0))
    );
}

// Builds a case by calls and seals it.
fn seal(
    rt: &impl Abort,
    all: &[Event],
    pairs: &[(Relation, u32, u32)],
) -> Result<Result<(), Fault>, Fail> {
    let Desk { case, events, ties } = Desk::built(rt, all, pairs)?;
    let answer = case.seal(&events, &ties);
    Ok(answer.map(|_| ()).map_err(|(_, found)| found))
}

fn initial(place: u8) -> Event {
    Event::of(0, Sort::WriteOnce, place)
}

fn write(thread: u8, place: u8) -> Event {
    Event::of(thread, Sort::WriteOnce, place)
}

fn read(thread: u8, place: u8) -> Event {
    Event::of(thread, Sort::ReadOnce, place)
}

// A read without rf, by number, and before the faults of places and locks.
#[test]
fn reads(rt: HostRuntime) -> Result<(), Fail> {
    assert_eq!(rt;
        seal(&rt, &[initial(1), read(1, 1)], &[(Relation::Rf, 0, 1)])?,
        Ok(())
    );
    assert_eq!(rt;
        seal(&rt, &[initial(1), read(1, 1)], &[])?,
        Err(fault(Cause::ReadWithoutRf, 1))
    );
    let all = [Event::of(1, Sort::RcuLock, 0), read(1, 2), read(1, 1)];
    assert_eq!(rt; seal(&rt, &all, &[])?, Err(fault(Cause::ReadWithoutRf, 1)));
    Ok(())
}

// No initial write, two of them, and the lowest place first.
#[test]
fn initial_writes(rt: HostRuntime) -> Result<(), Fail> {
    assert_eq!(rt;
        seal(&rt, &[write(1, 3)], &[])?,
        Err(fault(Cause::InitialWrites, 3))
    );
    assert_eq!(rt;
        seal(&rt, &[initial(16), initial(16)], &[])?,
        Err(fault(Cause::InitialWrites, 16))
    );
    assert_eq!(rt;
        seal(
            &rt,
            &[write(1, 9), write(1, 4), initial(9), initial(9)],
            &[]
        )?,
        Err(fault(Cause::InitialWrites, 4))
    );
    Ok(())
}

// Coherence that leaves two writes unordered, and coherence with a cycle; by place.
#[test]
fn coherence(rt: HostRuntime) -> Result<(), Fail> {
    let all = [initial(1), write(1, 1), write(2, 1)];
    assert_eq!(rt;
        seal(&rt, &all, &[(Relation::Co, 0, 1), (Relation::Co, 1, 2)])?,
        Ok(())
    );
    assert_eq!(rt;
        seal(&rt, &all, &[(Relation::Co, 0, 1), (Relation::Co, 0, 2)])?,
        Err(fault(Cause::CoherenceNotTotal, 1))
    );
    let cycle = [
        (Relation::Co, 0, 1),
        (Relation::Co, 1, 2),
        (Relation::Co, 2, 1),
    ];
    assert_eq!(rt;
        seal(&rt, &all, &cycle)?,
        Err(fault(Cause::CoherenceNotTotal, 1))
    );
    let two = [
        initial(2),
        write(1, 2),
        initial(1),
        write(1, 1),
        Event::of(1, Sort::RcuUnlock, 0),
    ];
    assert_eq!(rt;
        seal(&rt, &two, &[])?,
        Err(fault(Cause::CoherenceNotTotal, 1))
    );
    Ok(())
}

// An unlock too many, a lock left open with nesting, and the lowest thread first.
#[test]
fn locks(rt: HostRuntime) -> Result<(), Fail> {
    let lock = Event::of(1, Sort::RcuLock, 0);
    let unlock = Event::of(1, Sort::RcuUnlock, 0);
    assert_eq!(rt;
        seal(&rt, &[lock, lock, unlock, unlock, lock, unlock], &[])?,
        Ok(())
    );
    assert_eq!(rt;
        seal(&rt, &[lock, unlock, unlock, lock], &[])?,
        Err(fault(Cause::LocksNotPaired, 2))
    );
    assert_eq!(rt;
        seal(&rt, &[lock, unlock, lock, lock, unlock], &[])?,
        Err(fault(Cause::LocksNotPaired, 2))
    );
    assert_eq!(rt;
        seal(&rt, &[Event::of(2, Sort::RcuUnlock, 0), lock], &[])?,
        Err(fault(Cause::LocksNotPaired, 1))
    );
    Ok(())
}

// A sealed case of five events: an initial write, two reads and two writes of place 1 in thread 1.
fn sealed(rt: &impl Abort) -> Result<Desk<SealedCase>, Fail> {
    let all = [initial(1), read(1, 1), read(1, 1), write(1, 1), write(1, 1)];
    let pairs = [
        (Relation::Rf, 0, 1),
        (Relation::Rf, 0, 2),
        (Relation::Co, 0, 3),
        (Relation::Co, 3, 4),
        (Relation::Rmw, 1, 3),
        (Relation::Ctrl, 1, 4),
    ];
    let Desk { case, events, ties } = Desk::built(rt, &all, &pairs)?;
    let case = case
        .seal(&events, &ties)
        .map_err(|_| "the case does not seal")?;
    Ok(Desk { case, events, ties })
}

// The check of the table source, after one record and one word were written over.
fn overwritten(
    rt: &impl Abort,
    number: usize,
    record: Event,
    at: usize,
    word: u64,
) -> Result<Result<(), Fault>, Fail> {
    let Desk {
        case,
        mut events,
        mut ties,
    } = sealed(rt)?;
    if number < 64 {
        events[number] = record;
    }
    if at < 384 {
        ties[at] = word;
    }
    Ok(checked(&case.source(&events, &ties)?))
}

// Faults that the calls do not let in, in tables that were written over: events before ties, ties by relation and first event.
#[test]
fn events_and_ties(rt: HostRuntime) -> Result<(), Fail> {
    let same = read(1, 1);
    assert_eq!(rt; overwritten(&rt, 1, same, 0, 0b110)?, Ok(()));
    assert_eq!(rt;
        overwritten(&rt, 1, Event::of(9, Sort::ReadOnce, 1), 0, 1 << 63)?,
        Err(fault(Cause::OutOfRange, 1))
    );
    assert_eq!(rt;
        overwritten(&rt, 1, same, 0, 0b110 | 1 << 63)?,
        Err(fault(Cause::NoSuchEvent, 63))
    );
    assert_eq!(rt;
        overwritten(&rt, 1, same, 0, 0b1110)?,
        Err(fault(Cause::DoesNotFit, 0))
    );
    assert_eq!(rt;
        overwritten(&rt, 1, same, 3, 0b10)?,
        Err(fault(Cause::OverLimit, 1))
    );
    assert_eq!(rt;
        overwritten(&rt, 1, same, 322, 0b1000)?,
        Err(fault(Cause::OverLimit, 3))
    );
    assert_eq!(rt;
        overwritten(&rt, 1, same, 321, 0b11000)?,
        Err(fault(Cause::OverLimit, 4))
    );
    assert_eq!(rt;
        overwritten(&rt, 1, same, 67, 0)?,
        Err(fault(Cause::CoherenceNotTotal, 1))
    );
    Ok(())
}

// The same check over layers: a cut hides a dependency and a lowered case is well formed still.
#[test]
fn layers_over_tables(rt: HostRuntime) -> Result<(), Fail> {
    let Desk { case, events, ties } = sealed(&rt)?;
    let (ctrl, rmw) = (
        Relation::Ctrl.number() as u32,
        Relation::Rmw.number() as u32,
    );
    let rf = Relation::Rf.number() as u32;
    let cut = Cut {
        below: case.source(&events, &ties)?,
        relation: ctrl,
        event: 1,
    };
    assert_eq!(rt; cut.row(ctrl, 1), 0);
    assert_eq!(rt; cut.row(rmw, 1), 0b1000);
    let layers = Lowered {
        below: cut,
        sorts: [Sort::ReadOnce.number(); 64],
    };
    assert_eq!(rt; checked(&layers), Ok(()));
    let other = Cut {
        below: case.source(&events, &ties)?,
        relation: rf,
        event: 0,
    };
    assert_eq!(rt; other.row(rf, 0), 0b110);
    assert_eq!(rt; checked(&other), Ok(()));
    Ok(())
}
