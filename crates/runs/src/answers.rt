// What a call on the tables returned, as the answer of a run.
ghost use Rattle.std.specs.Prelude.{◌≡◌};
ghost use Rattle.runs.specs.Runs.{entered_answer, done_answer};

use crate::kinds::Answer;
use executions::Fault;

impl From<Result<usize, Fault>> for Answer {
    ghost from_gives = { λ r a. a ≡ entered_answer r };

    fn from(entered: Result<usize, Fault>) -> Answer {
        match entered {
            Ok(number) => Answer::Entered(number),
            Err(fault) => Answer::Refused(fault),
        }
    }
}

impl From<Result<(), Fault>> for Answer {
    ghost from_gives = { λ r a. a ≡ done_answer r };

    fn from(done: Result<(), Fault>) -> Answer {
        match done {
            Ok(()) => Answer::Done,
            Err(fault) => Answer::Refused(fault),
        }
    }
}
