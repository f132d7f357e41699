// Read-side critical sections: each outermost lock with the unlock that closes it.
ghost use Rattle.std.specs.Prelude.{◌≡◌, ◌&&◌, ◌==◌};
ghost use Rattle.relations.specs.Algebra.{union};
ghost use Rattle.relations.specs.View.{rel, size};
ghost use Rattle.executions.specs.Execution.{count as events_of};
ghost use Rattle.sources.specs.Snapshot.{execution};
ghost use Rattle.wellformed.specs.Events.{unlock_of};
ghost use Rattle.basis.specs.Sections.{closes, crit, HasSections};

use executions::Event;
use relations::Relation;
use sources::Snapshot;
use wellformed::locks::{depth_after, is_unlock, outermost_after};

// The sections of all threads of the program.
pub(crate) fn sections(case: &Snapshot) -> Relation
    ensures pairs { rel result ≡ crit (execution case.now) }
    ensures events { size result ≡ events_of (execution case.now) }
    ensures in_words { HasSections (execution case.now) (rel result) }
{
    let mut found = Relation::empty(case.count());
    for thread in 1..=8 {
        add_sections(case, thread, &mut found);
    }
    found
}

// Adds the sections of a thread: a walk with the number of its open locks and the outermost lock that was opened last, two numbers, as the
// steps of wellformed take them. A copied case lends no array of its events: it answers by number.
fn add_sections(case: &Snapshot, thread: usize, found: &mut Relation)
    requires { size found.old ≡ events_of (execution case.now) }
    ensures pairs { rel found.new ≡ union (rel found.old) (closes (execution case.now) thread) }
    ensures events { size found.new ≡ size found.old }
{
    let mut depth = 0;
    let mut outermost = 0;
    for i in 0..case.count() {
        let event = case.event(i);
        if is_last_unlock(event, thread, depth) {
            found.add(outermost, i);
        }
        outermost = outermost_after(event, thread, depth, outermost, i);
        depth = depth_after(event, thread, depth);
    }
}

// An unlock of the thread that closes the only open lock.
fn is_last_unlock(event: Event, thread: usize, depth: usize) -> bool
    ensures { result ≡ (unlock_of thread event && depth == 1) }
{
    is_unlock(event, thread) && depth == 1
}
