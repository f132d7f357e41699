// What is timed: a step that a text goes through.
use crate::cases::Built;
use casetext::reading::read;
use casewriter::write;
use executions::Event;
use std::fmt;
use textsource::TextSource;
use wellformed::check;

#[derive(Clone, Copy)]
pub(crate) enum Step {
    // The text is read into tables.
    Read,
    // The case in the tables is checked, as it is when it is sealed.
    Check,
    // The sealed case is written.
    Write,
    // The text itself is checked as a source, which reads it anew for each question.
    Source,
}

// The steps in their order.
pub(crate) const STEPS: [Step; 4] = [Step::Read, Step::Check, Step::Write, Step::Source];

impl fmt::Display for Step {
    fn fmt<W: fmt::Write>(&self, f: &mut fmt::Formatter<W>) -> fmt::Result {
        f.write_str(match self {
            Step::Read => "read",
            Step::Check => "check",
            Step::Write => "write",
            Step::Source => "check of the text source",
        })
    }
}

// How often a step is run.
pub(crate) const ROUNDS: u32 = 10;

// A step, many times, at a case and its text. A step is an enum, and no closure, since it is printed too.
pub(crate) fn repeated(step: Step, built: &Built, text: &[u8], buffer: &mut [u8]) -> usize {
    let mut sum: usize = 0;
    for _ in 0..ROUNDS {
        let came = match step {
            Step::Read => read_once(text),
            Step::Check => built.checked().map_or(0, |copy| copy.count()),
            Step::Write => write(&built.case, &built.events, &built.ties, buffer).unwrap_or(0),
            Step::Source => check(&TextSource { text }).map_or(0, |copy| copy.count()),
        };
        sum = sum.wrapping_add(came);
    }
    sum
}

fn read_once(text: &[u8]) -> usize {
    let mut events = [Event::UNUSED; 64];
    let mut ties = [0u64; 384];
    read(text, &mut events, &mut ties).map_or(0, |case| case.count())
}

// Reads a text, seals its case and writes it; how many bytes it wrote, 0 where any of that is refused.
pub(crate) fn retold(text: &[u8], buffer: &mut [u8]) -> usize {
    let mut events = [Event::UNUSED; 64];
    let mut ties = [0u64; 384];
    let Ok(open) = read(text, &mut events, &mut ties) else {
        return 0;
    };
    let Ok(case) = open.seal(&events, &ties) else {
        return 0;
    };
    write(&case, &events, &ties, buffer).unwrap_or(0)
}
