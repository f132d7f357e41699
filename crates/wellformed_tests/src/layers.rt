// What the layers show. Sorts are numbers where numbers that name none are tried too.
use crate::repeated::Repeated;
use executions::{Event, Sort};
use sources::{CaseSource, Lowered};

fn event(sort: u8) -> Event {
    Event {
        thread: 1,
        sort,
        place: 0,
    }
}

// The sorts that are weaker, each under the one that it may stand for.
const WEAKER: [(Sort, Sort); 12] = [
    (Sort::ReadOnce, Sort::ReadAcquire),
    (Sort::WriteOnce, Sort::WriteRelease),
    (Sort::Rmb, Sort::Mb),
    (Sort::Wmb, Sort::Mb),
    (Sort::Rmb, Sort::SyncRcu),
    (Sort::Wmb, Sort::SyncRcu),
    (Sort::Mb, Sort::SyncRcu),
    (Sort::Blank, Sort::SyncRcu),
    (Sort::Blank, Sort::Rmb),
    (Sort::Blank, Sort::Wmb),
    (Sort::Blank, Sort::Mb),
    (Sort::Blank, Sort::RbDep),
];

fn is_listed(new: u8, old: u8) -> bool {
    WEAKER
        .iter()
        .any(|(a, b)| a.number() == new && b.number() == old)
}

// The sort that event 0 shows under a new one.
fn shown(new: u8, old: u8) -> Option<u8> {
    let mut sorts = [0u8; 64];
    sorts[0] = new;
    let layer = Lowered {
        below: Repeated {
            event: event(old),
            count: 1,
        },
        sorts,
    };
    layer.event(0).map(|e| e.sort)
}

// All 144 pairs, by number, as the layer takes them: the listed ones show, every other pair leaves the event.
#[test]
fn weaker_sorts_show(rt: HostRuntime) {
    for old in 1..=12 {
        for new in 1..=12 {
            let expected = if is_listed(new, old) { new } else { old };
            assert_eq!(rt; shown(new, old), Some(expected));
        }
    }
}

// No sort, one past the list, and an event past the 64th leave the event.
#[test]
fn other_sorts_leave_the_event(rt: HostRuntime) {
    assert_eq!(rt; shown(0, 7), Some(7));
    assert_eq!(rt; shown(13, 11), Some(11));
    assert_eq!(rt; shown(255, 2), Some(2));
    let mb = event(Sort::Mb.number());
    let layer = Lowered {
        below: Repeated {
            event: mb,
            count: 66,
        },
        sorts: [Sort::Blank.number(); 64],
    };
    assert_eq!(rt; layer.event(63), Some(event(Sort::Blank.number())));
    assert_eq!(rt; layer.event(64), Some(mb));
    assert_eq!(rt; layer.event(65), Some(mb));
    assert_eq!(rt; layer.event(66), None);
    assert_eq!(rt; layer.count(), 66);
}
