// The interface of a case source.
ghost use Rattle.std.specs.Prelude.{◌≡◌, length};
ghost use Rattle.std.specs.List.{slice_get};
ghost use Rattle.rows.specs.Row.{bit};
ghost use Rattle.executions.specs.Execution.{Execution};
ghost use Rattle.sources.specs.Source.{targets};

use executions::Event;

// A case source answers three questions about one candidate execution. Asking changes nothing.
pub trait CaseSource {
    // The execution that the source is about. Of its ties only those from its events to numbers below 64 count.
    ghost meaning: { Self → Execution };

    // How many events there are.
    fn count(&self) -> usize
        ensures { result ≡ length (meaning self.now).events };

    // The event of a number; none past the last one.
    fn event(&self, number: usize) -> Option<Event>
        ensures { result ≡ slice_get (meaning self.now).events number };

    // The events that a relation ties an event to, bit by bit; none for a relation or an event that there is not. The relation is named by its
    // number, since a caller may name one that there is not.
    fn row(&self, relation: u32, event: usize) -> u64
        ensures { bit result ≡ targets (meaning self.now) relation event };
}
