// A run of the bench, call by call: RCU-MP is built, sealed and judged; then it is reopened, a read is moved to another write, and it is sealed and
// judged again. Some calls do not fit the state or are refused, and change nothing.
#![tactic(auto)]

mod calls;
mod words;

use calls::{COUNT, calls};
use executions::Event;
use runs::{Answer, run};
use std::io;
use words::{Answered, Asked};

fn main(rt: HostRuntime) -> io::Result<()> {
    let mut events = [Event::UNUSED; 64];
    let mut ties = [0u64; 384];
    let calls = calls();
    let mut answers = [Answer::OtherState; COUNT];
    if let Err(fault) = run(&calls, &mut events, &mut ties, &mut answers) {
        return println!(rt; "open refused {}", fault.number());
    }
    for (call, answer) in calls.iter().zip(&answers) {
        println!(rt; "{}: {}", Asked(*call), Answered(answer))?;
    }
    Ok(())
}
