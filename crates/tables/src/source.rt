// The case in two tables as a case source.
ghost use Rattle.tables.specs.Tables.{held_execution};

use crate::kinds::TableSource;
use executions::{Event, Relation};
use sources::CaseSource;

impl<'a> CaseSource for TableSource<'a> {
    ghost meaning = { λ s. held_execution s.count s.events.now s.ties.now };

    fn count(&self) -> usize {
        self.count.min(self.events.len())
    }

    fn event(&self, number: usize) -> Option<Event> {
        if number >= self.count {
            return None;
        }
        self.events.get(number).copied()
    }

    fn row(&self, relation: u32, event: usize) -> u64 {
        let Ok(known) = Relation::try_from(relation) else {
            return 0;
        };
        if event < self.count() {
            known.targets(self.ties, event)
        } else {
            0
        }
    }
}
