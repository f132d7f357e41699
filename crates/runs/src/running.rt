// A list of calls, one after another, on the same two tables.
ghost use Rattle.runs.specs.States.{RunOn};

use crate::kinds::{Answer, Call, State};
use crate::steps::step;
use executions::{Event, Fault};
use tables::OpenCase;

// Opens a case and makes the calls in turn, as many as there is room for answers.
pub fn run(
    calls: &[Call],
    events: &mut [Event],
    ties: &mut [u64],
    answers: &mut [Answer],
) -> Result<State, Fault>
    ensures { RunOn calls.now events.old ties.old answers.old events.new ties.new answers.new result }
{
    let mut state = State::Open(OpenCase::open(events, ties)?);
    // answers by number: of what a zip over iter_mut writes, nothing is known after the loop
    let room = calls.len().min(answers.len());
    for (i, call) in calls[..room].iter().enumerate() {
        let (next, answer) = step(state, events, ties, *call);
        state = next;
        answers[i] = answer;
    }
    Ok(state)
}
