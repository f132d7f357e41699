// Sealed cases that are written, and what write refuses.
use crate::seen::says;
use casetext::reading::read;
use casewriter::write;
use executions::{Event, Fault, Relation, Sort};
use std::test::Fail;
use tables::{OpenCase, SealedCase};

// An initial write, and a thread that reads its own later write.
const OWN: &[u8] = b"events 3\nW 0 once 1\nR 1 once 1\nW 1 once 1\nties 2\nrf 2 1\nco 0 2\n";

const BYTES: usize = 63;

#[test]
fn an_exact_buffer(rt: HostRuntime) -> Result<(), Fail> {
    let mut events = [Event::UNUSED; 64];
    let mut ties = [0u64; 384];
    let case = sealed(OWN, &mut events, &mut ties).ok_or("not sealed")?;
    let mut buffer = [7u8; BYTES];
    assert_eq!(rt; write(&case, &events, &ties, &mut buffer).ok(), Some(BYTES));
    assert!(rt; buffer.as_slice() == OWN, "the text that was read");
    Ok(())
}

#[test]
fn a_longer_buffer(rt: HostRuntime) -> Result<(), Fail> {
    let mut events = [Event::UNUSED; 64];
    let mut ties = [0u64; 384];
    let case = sealed(OWN, &mut events, &mut ties).ok_or("not sealed")?;
    let mut buffer = [7u8; BYTES + 2];
    assert_eq!(rt; write(&case, &events, &ties, &mut buffer).ok(), Some(BYTES));
    assert!(rt; &buffer[0..BYTES] == OWN, "the text that was read");
    assert!(rt;
        buffer[BYTES] == 7 && buffer[BYTES + 1] == 7,
        "the rest stays"
    );
    Ok(())
}

#[test]
fn a_byte_short(rt: HostRuntime) -> Result<(), Fail> {
    let mut events = [Event::UNUSED; 64];
    let mut ties = [0u64; 384];
    let case = sealed(OWN, &mut events, &mut ties).ok_or("not sealed")?;
    let mut buffer = [7u8; BYTES - 1];
    let answer = write(&case, &events, &ties, &mut buffer);
    assert!(rt; refused(answer, 15, 3, 0), "no room");
    assert!(rt; untouched(&buffer), "the buffer stays");
    Ok(())
}

// The tables are tested before the buffer.
#[test]
fn short_tables(rt: HostRuntime) -> Result<(), Fail> {
    let mut events = [Event::UNUSED; 64];
    let mut ties = [0u64; 384];
    let case = sealed(OWN, &mut events, &mut ties).ok_or("not sealed")?;
    let mut buffer = [7u8; BYTES];
    let answer = write(&case, &events[0..63], &ties, &mut buffer);
    assert!(rt; refused(answer, 1, 3, 0), "63 records");
    let answer = write(&case, &events, &ties[0..383], &mut buffer);
    assert!(rt; refused(answer, 1, 3, 0), "383 words");
    assert!(rt; untouched(&buffer), "the buffer stays");
    let answer = write(&case, &events[0..63], &ties, &mut buffer[0..1]);
    assert!(rt; refused(answer, 1, 3, 0), "before the buffer");
    Ok(())
}

// Tables that were changed since the case was sealed: the read has no write any more. The case is tested before the buffer.
#[test]
fn changed_tables(rt: HostRuntime) -> Result<(), Fail> {
    let mut events = [Event::UNUSED; 64];
    let mut ties = [0u64; 384];
    let case = sealed(OWN, &mut events, &mut ties).ok_or("not sealed")?;
    ties[2] = 0;
    let mut buffer = [7u8; BYTES];
    let answer = write(&case, &events, &ties, &mut buffer);
    assert!(rt; refused(answer, 9, 2, 1), "a read without rf");
    assert!(rt; untouched(&buffer), "the buffer stays");
    let answer = write(&case, &events, &ties, &mut buffer[0..1]);
    assert!(rt; refused(answer, 9, 2, 1), "before the buffer");
    Ok(())
}

// A case that was built by calls is written as its text, and read back into other tables.
#[test]
fn built_and_read_back(rt: HostRuntime) -> Result<(), Fail> {
    let mut events = [Event::UNUSED; 64];
    let mut ties = [0u64; 384];
    let case = built(&mut events, &mut ties).ok_or("not sealed")?;
    let mut buffer = [7u8; BYTES];
    assert_eq!(rt; write(&case, &events, &ties, &mut buffer).ok(), Some(BYTES));
    assert!(rt; buffer.as_slice() == OWN, "its text");
    let mut records = [Event::UNUSED; 64];
    let mut words = [0u64; 384];
    assert!(rt;
        sealed(&buffer, &mut records, &mut words).is_some(),
        "sealed again"
    );
    assert!(rt; records == events && words == ties);
    Ok(())
}

fn built(events: &mut [Event], ties: &mut [u64]) -> Option<SealedCase> {
    let mut case = OpenCase::open(events, ties).ok()?;
    let _ = case.enter(events, ties, record(0, Sort::WriteOnce)).ok()?;
    let _ = case.enter(events, ties, record(1, Sort::ReadOnce)).ok()?;
    let _ = case.enter(events, ties, record(1, Sort::WriteOnce)).ok()?;
    let (rf, co) = (Relation::Rf.number() as u32, Relation::Co.number() as u32);
    let _ = case.tie(events, ties, co, 0, 2).ok()?;
    let _ = case.tie(events, ties, rf, 2, 1).ok()?;
    case.seal(events, ties).ok()
}

// A read or write of place 1.
fn record(thread: u8, sort: Sort) -> Event {
    Event::of(thread, sort, 1)
}

// A text read and sealed.
fn sealed(text: &[u8], events: &mut [Event], ties: &mut [u64]) -> Option<SealedCase> {
    let open = read(text, events, ties).ok()?;
    open.seal(events, ties).ok()
}

// Whether an answer is this refusal: cause, layer and place.
fn refused(answer: Result<usize, Fault>, cause: u8, layer: u8, place: u32) -> bool {
    answer.is_err_and(|fault| says(fault, cause, layer, place))
}

fn untouched(buffer: &[u8]) -> bool {
    buffer.iter().all(|byte| *byte == 7)
}
