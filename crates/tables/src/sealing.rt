// Sealing a case, opening it again, and asking a sealed one.
ghost use Rattle.tables.specs.Tables.{Seals, Reopens, Sources};

use crate::calls::test_lengths;
use crate::kinds::{OpenCase, SealedCase, TableSource};
use executions::{Event, Fault, Layer};
use wellformed::check;

impl OpenCase {
    // Seals a well-formed case, or hands it back with its first fault.
    pub fn seal<'a>(
        self,
        events: &'a [Event],
        ties: &'a [u64],
    ) -> Result<SealedCase, (OpenCase, Fault)>
        ensures { Seals self events.now ties.now result }
    {
        if let Err(fault) = test_lengths(Layer::Check, events.len(), ties.len()) {
            return Err((self, fault));
        }
        let count = self.count;
        check(&TableSource {
            count,
            events,
            ties,
        })
        .map_err(|fault| (self, fault))?;
        Ok(SealedCase { count })
    }
}

impl SealedCase {
    // The open case again, with the same events and ties.
    pub fn reopen(self) -> OpenCase
        ensures { Reopens self result }
    {
        OpenCase { count: self.count }
    }

    // The case as a source, to be judged or written.
    pub fn source<'a>(&self, events: &'a [Event], ties: &'a [u64]) -> Result<TableSource<'a>, Fault>
        ensures { Sources self.now events.now ties.now result }
    {
        test_lengths(Layer::Check, events.len(), ties.len())?;
        Ok(TableSource {
            count: self.count,
            events,
            ties,
        })
    }
}
