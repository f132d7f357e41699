// Texts that are read, asked and written back.
use crate::seen::is_read;
use casewriter::write_snapshot;
use executions::{Event, Relation, Sort};
use sources::{CaseSource, Snapshot};
use std::test::Fail;
use textsource::TextSource;

const MESSAGE: &[u8] =
    b"events 8\nW 0 once 1\nW 0 once 2\nW 1 once 1\nF 1 wmb\nW 1 once 2\nR 2 once 2\nF 2 rmb\nR 2 once 1\nties 4\nrf 0 7\nrf 4 5\nco 0 2\nco 1 4\n";

#[test]
fn accepted(rt: HostRuntime) {
    assert!(rt; is_read(b"events 0\nties 0\n"), "the blank case");
    assert!(rt;
        is_read(b"events 3\nW 0 once 1\nR 1 once 1\nW 1 once 1\nties 2\nrf 2 1\nco 0 2\n"),
        "three events"
    );
    assert!(rt; is_read(MESSAGE), "message passing");
}

#[test]
fn asked(rt: HostRuntime) {
    let source = TextSource { text: MESSAGE };
    assert_eq!(rt; source.count(), 8);
    assert_eq!(rt; source.event(3), Some(Event::of(1, Sort::Wmb, 0)));
    assert_eq!(rt; source.event(8), None);
    assert_eq!(rt; source.row(Relation::Rf.number() as u32, 0), 128);
    assert_eq!(rt; source.row(Relation::Co.number() as u32, 1), 16);
    assert_eq!(rt; source.row(7, 0), 0);
}

#[test]
fn written_back(rt: HostRuntime) -> Result<(), Fail> {
    let source = TextSource { text: MESSAGE };
    let copy = Snapshot::of(&source).ok_or("more than 64 events")?;
    let mut buffer = [7u8; 200];
    let length = write_snapshot(&copy, &mut buffer).ok_or("too short")?;
    assert_eq!(rt; length, MESSAGE.len());
    assert!(rt; buffer.starts_with(MESSAGE));
    assert_eq!(rt; buffer.get(MESSAGE.len()), Some(&7));
    let mut small = [7u8; 20];
    assert_eq!(rt; write_snapshot(&copy, &mut small), None);
    assert_eq!(rt; small[0], 7);
    Ok(())
}
