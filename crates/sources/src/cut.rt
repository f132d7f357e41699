// A layer that takes dependencies out of a case.
ghost use Rattle.std.specs.Prelude.{◌≡◌};
ghost use Rattle.sources.specs.Cut.{cut, hides};

use crate::asked::CaseSource;
use executions::{Event, Relation};

// Shows the case below without the ties out of one event in one of addr, data and ctrl. With another relation it shows the case as it is.
// The relation is named by its number, since a caller may name one that there is not.
#[derive(Drop)]
pub struct Cut<S> {
    pub below: S,
    pub relation: u32,
    pub event: usize,
}

impl<S: CaseSource> CaseSource for Cut<S> {
    ghost meaning = { λ s. cut s.relation s.event (S.CaseSource.meaning s.below) };

    fn count(&self) -> usize {
        self.below.count()
    }

    fn event(&self, number: usize) -> Option<Event> {
        self.below.event(number)
    }

    fn row(&self, relation: u32, event: usize) -> u64 {
        if self.is_hidden(relation, event) {
            0
        } else {
            self.below.row(relation, event)
        }
    }
}

impl<S> Cut<S> {
    // Whether the ties of this relation out of this event are the ones that are hidden.
    fn is_hidden(&self, relation: u32, event: usize) -> bool
        ensures { result ≡ hides self.now.relation self.now.event relation event }
    {
        let dependency = matches!(
            Relation::try_from(self.relation),
            Ok(Relation::Addr | Relation::Data | Relation::Ctrl)
        );
        dependency && relation == self.relation && event == self.event
    }
}
