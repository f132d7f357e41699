// The test of locks: in each thread every unlock closes a lock, and no lock stays open. The steps of its walk through a thread are
// public, for the walk that gathers the critical sections: these take the depth and the outermost lock as two numbers. A case is asked for its
// events by number, and a lock and an unlock differ in their sort alone.
ghost use Rattle.std.specs.Prelude.{◌≡◌, pred, ◌+◌, ◌-◌, ◌^◌, ◌<◌, ◌≤◌, min, ◌&&◌, if◌then◌else◌, ◌==◌};
ghost use Rattle.std.specs.Result.{result_err};
ghost use Rattle.sources.specs.Snapshot.{execution};
ghost use Rattle.wellformed.specs.Events.{lock_of, unlock_of};
ghost use Rattle.wellformed.specs.Faults.{first, thread_fault as thread_first};

use crate::declining::{decline_if, test_each};
use executions::{Cause, Event, Fault, Sort};
use sources::Snapshot;

// Declines with the first fault of a thread, by thread.
pub(crate) fn test_locks(case: &Snapshot) -> Result<(), Fault>
    ensures { result_err result ≡ first 8 (λ k. thread_first (execution case.now) (k + 1)) }
{
    test_each(8, |k| test_thread(case, k + 1))
}

// Walks a thread with the number of its open locks and the outermost lock that was opened last.
fn test_thread(case: &Snapshot, thread: usize) -> Result<(), Fault>
    ensures { result_err result ≡ thread_first (execution case.now) thread }
{
    let mut depth = 0;
    let mut outermost = 0;
    for i in 0..case.count() {
        let event = case.event(i);
        decline_if(is_unmatched(event, thread, depth), Cause::LocksNotPaired, i)?;
        outermost = outermost_after(event, thread, depth, outermost, i);
        depth = depth_after(event, thread, depth);
    }
    decline_if(depth > 0, Cause::LocksNotPaired, outermost)
}

// An unlock of the thread where no lock is open.
fn is_unmatched(event: Event, thread: usize, depth: usize) -> bool
    ensures { result ≡ (unlock_of thread event && depth == 0) }
{
    is_unlock(event, thread) && depth == 0
}

// How many locks of the thread are open after an event. The number stops at the largest, which no case reaches, so every call has an answer.
pub fn depth_after(event: Event, thread: usize, depth: usize) -> usize
    ensures locks { result ≡ (if lock_of thread event then min (depth + 1) (2 ^ 64 - 1) else (if unlock_of thread event then pred depth else depth)) }
    ensures within { result ≤ depth + 1 }
{
    if is_lock(event, thread) {
        depth.saturating_add(1)
    } else if is_unlock(event, thread) {
        depth.saturating_sub(1)
    } else {
        depth
    }
}

// The outermost lock of the thread that was opened last, after event i.
pub fn outermost_after(
    event: Event,
    thread: usize,
    depth: usize,
    outermost: usize,
    i: usize,
) -> usize
    ensures { result ≡ (if lock_of thread event && depth == 0 then i else outermost) }
{
    if is_lock(event, thread) && depth == 0 {
        i
    } else {
        outermost
    }
}

// An rcu-lock of the thread.
fn is_lock(event: Event, thread: usize) -> bool
    ensures { result ≡ lock_of thread event }
{
    event.thread as usize == thread && event.is(Sort::RcuLock)
}

// An rcu-unlock of the thread.
pub fn is_unlock(event: Event, thread: usize) -> bool
    ensures { result ≡ unlock_of thread event }
{
    event.thread as usize == thread && event.is(Sort::RcuUnlock)
}
