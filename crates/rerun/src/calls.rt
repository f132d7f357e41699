// The calls of the run.
use executions::{Event, Relation, Sort};
use runs::Call;

// How many there are.
pub(crate) const COUNT: usize = 25;

pub(crate) fn calls() -> [Call; COUNT] {
    let (rf, co) = (Relation::Rf.number() as u32, Relation::Co.number() as u32);
    [
        enter(0, Sort::WriteOnce, 1),
        enter(0, Sort::WriteOnce, 2),
        enter(1, Sort::RcuLock, 0),
        enter(1, Sort::ReadOnce, 1),
        enter(1, Sort::ReadOnce, 2),
        enter(1, Sort::RcuUnlock, 0),
        enter(2, Sort::WriteOnce, 2),
        enter(2, Sort::SyncRcu, 0),
        enter(9, Sort::WriteOnce, 1),
        enter(2, Sort::WriteOnce, 1),
        Call::Tie(rf, 8, 3),
        Call::Tie(rf, 1, 4),
        Call::Tie(co, 0, 8),
        Call::Judge(64),
        Call::Seal,
        Call::Tie(co, 1, 6),
        Call::Seal,
        enter(1, Sort::Mb, 0),
        Call::Judge(63),
        Call::Judge(64),
        Call::Reopen,
        Call::Untie(rf, 1, 4),
        Call::Tie(rf, 6, 4),
        Call::Seal,
        Call::Judge(64),
    ]
}

fn enter(thread: u8, sort: Sort, place: u8) -> Call {
    Call::Enter(Event::of(thread, sort, place))
}
