// A source that stores no table: one event, so many times, and no tie.
ghost use Rattle.std.specs.Prelude.{false, replicate};

use executions::Event;
use sources::CaseSource;

#[derive(Drop)]
pub struct Repeated {
    pub event: Event,
    pub count: usize,
}

impl CaseSource for Repeated {
    ghost meaning = { λ s. record { events = replicate s.count s.event; ties = λ r a b. false } };

    fn count(&self) -> usize {
        self.count
    }

    fn event(&self, number: usize) -> Option<Event> {
        (number < self.count).then_some(self.event)
    }

    fn row(&self, relation: u32, event: usize) -> u64 {
        let _ = (relation, event);
        0
    }
}
