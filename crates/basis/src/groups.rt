// The events by thread, by sort and by place, in one walk through the case.
ghost use Rattle.std.specs.Prelude.{◌≡◌, ℕ, ◌<◌, ◌&&◌, ◌||◌, ◌==◌, slice_index};
ghost use Rattle.rows.specs.Row.{bit};
ghost use Rattle.executions.specs.Execution.{count as events_of, event_at};
ghost use Rattle.sources.specs.Snapshot.{execution};
ghost use Rattle.basis.specs.Groups.{Grouped as InGroups};

use rows::with;
use sources::Snapshot;

// A row of events for each number that a byte can hold, so that no number has to be tested.
type Rows = [u64; 256];

// A case with all its events in their groups.
#[derive(Clone, Copy)]
pub(crate) struct Grouped<'a> {
    pub(crate) case: &'a Snapshot,
    pub(crate) threads: Rows,
    pub(crate) sorts: Rows,
    pub(crate) places: Rows,
    ghost by_thread: { InGroups (λ b. (event_at (execution case.now) b).thread) (events_of (execution case.now)) threads },
    ghost by_sort: { InGroups (λ b. (event_at (execution case.now) b).sort) (events_of (execution case.now)) sorts },
    ghost by_place: { InGroups (λ b. (event_at (execution case.now) b).place) (events_of (execution case.now)) places },
}

impl<'a> Grouped<'a> {
    // Puts the events of a case into their groups. A copied case lends no array of them: it answers by number.
    pub(crate) fn of(case: &'a Snapshot) -> Grouped<'a>
        ensures { result.case.now ≡ case.now }
    {
        let mut threads = [0; 256];
        let mut sorts = [0; 256];
        let mut places = [0; 256];
        for i in 0..case.count() {
            let event = case.event(i);
            put(&mut threads, event.thread, i);
            put(&mut sorts, event.sort, i);
            put(&mut places, event.place, i);
        }
        Grouped {
            case,
            threads,
            sorts,
            places,
        }
    }
}

// Puts an event into the group of its number.
fn put(groups: &mut Rows, number: u8, event: usize)
    requires { event < 64 }
    ensures { (k b : ℕ) → k < 256 → bit (slice_index groups.new k) b ≡ (bit (slice_index groups.old k) b || (b == event && number == k)) }
{
    let k = number as usize;
    groups[k] = with(groups[k], event);
}
