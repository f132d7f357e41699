// The numbers of the marks.
ghost use Rattle.std.specs.Prelude.{◌≡◌};
ghost use Rattle.rounds.specs.Marks.{number};

use crate::kinds::Mark;

impl Mark {
    // The published number: 1 for a period step, 2 for a section step.
    pub fn number(self) -> u8
        ensures { result ≡ number self }
    {
        self as u8
    }
}
