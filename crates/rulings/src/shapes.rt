// What there is in a case to put in an order.
ghost use Rattle.sources.specs.Snapshot.{execution};
ghost use Rattle.rulings.specs.Shapes.{Shaped};

use basis::Base;
use sources::Snapshot;

// How many events a case has, and which of them are locks of sections and which are periods.
#[derive(Clone, Copy)]
pub struct Shape {
    pub events: usize,
    pub locks: u64,
    pub periods: u64,
}

impl Shape {
    // Computed, so `of` and no From, which would read as a change of form.
    pub fn of(case: &Snapshot) -> Shape
        ensures { Shaped (execution case.now) result }
    {
        let base = Base::of(case);
        Shape {
            events: case.count(),
            locks: base.crit.inverse().image(u64::MAX),
            periods: base.periods,
        }
    }
}
