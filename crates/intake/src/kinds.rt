// What a text comes to.
use executions::{Event, Fault};

// The innermost fault, and the line that it came from; 0 where it came from none.
#[derive(Clone, Copy)]
pub struct Refusal {
    pub fault: Fault,
    pub line: u32,
}

// The two tables of a case, each of its own length, as every call takes them.
#[derive(Clone, Copy)]
pub struct Tables {
    pub events: [Event; 64],
    pub ties: [u64; 384],
}

impl Tables {
    // Tables that hold nothing.
    pub const BLANK: Tables = Tables {
        events: [Event::UNUSED; 64],
        ties: [0; 384],
    };
}
