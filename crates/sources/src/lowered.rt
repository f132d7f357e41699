// A layer that makes events weaker.
ghost use Rattle.std.specs.Prelude.{◌≡◌, if◌then◌else◌, nat_lt, slice_index};
ghost use Rattle.sources.specs.Lowered.{weaker, lower, lowered};

use crate::asked::CaseSource;
use executions::{Event, Sort};

// Shows the case below with new sorts: for each event below 64 a sort, which is shown where it is weaker than the event's own. 0 is none.
// The sorts are their numbers, as in an event record: a caller may give numbers that name none.
#[derive(Drop)]
pub struct Lowered<S> {
    pub below: S,
    pub sorts: [u8; 64],
}

impl<S: CaseSource> CaseSource for Lowered<S> {
    ghost meaning = { λ s. lowered s.sorts (S.CaseSource.meaning s.below) };

    fn count(&self) -> usize {
        self.below.count()
    }

    fn event(&self, number: usize) -> Option<Event> {
        Some(self.shown(number, self.below.event(number)?))
    }

    fn row(&self, relation: u32, event: usize) -> u64 {
        self.below.row(relation, event)
    }
}

impl<S> Lowered<S> {
    // The event of a number as this layer shows it.
    fn shown(&self, number: usize, event: Event) -> Event
        ensures { result ≡ (if nat_lt number 64 then lower (slice_index self.now.sorts number) event else event) }
    {
        if number < 64 && is_weaker(self.sorts[number], event.sort) {
            Event {
                sort: self.sorts[number],
                ..event
            }
        } else {
            event
        }
    }
}

// Whether the first sort orders less than the second, so that it may stand in its place.
pub fn is_weaker(new: u8, old: u8) -> bool
    ensures { result ≡ weaker new old }
{
    let (Ok(new), Ok(old)) = (Sort::try_from(new), Sort::try_from(old)) else {
        return false;
    };
    match old {
        Sort::ReadAcquire => new == Sort::ReadOnce,
        Sort::WriteRelease => new == Sort::WriteOnce,
        Sort::Rmb | Sort::Wmb | Sort::RbDep => new == Sort::Blank,
        Sort::Mb => matches!(new, Sort::Rmb | Sort::Wmb | Sort::Blank),
        Sort::SyncRcu => matches!(new, Sort::Rmb | Sort::Wmb | Sort::Mb | Sort::Blank),
        _ => false,
    }
}
