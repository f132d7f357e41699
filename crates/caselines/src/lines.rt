// What the lines of a case text say.
ghost use Rattle.std.specs.Prelude.{◌≡◌};
ghost use Rattle.caselines.specs.Lines.{letter};

use executions::{Relation, Sort};

// What an event line begins with.
#[derive(Clone, Copy, PartialEq, Eq, Debug)]
pub enum Letter {
    Read,
    Write,
    Fence,
}

// The letter of an event of a sort.
impl From<Sort> for Letter {
    ghost from_gives = { λ s l. l ≡ letter s };

    fn from(sort: Sort) -> Letter {
        match sort {
            Sort::ReadOnce | Sort::ReadAcquire => Letter::Read,
            Sort::WriteOnce | Sort::WriteRelease => Letter::Write,
            _ => Letter::Fence,
        }
    }
}

// A line of a case text. Its numbers are as written, and may name no thread, place or event.
#[derive(Clone, Copy, PartialEq, Eq, Debug)]
pub enum Line {
    // How many event lines follow.
    Events(u32),
    // An event with its thread and its place, 0 for a fence.
    Event(Sort, u32, u32),
    // How many tie lines follow.
    Ties(u32),
    // A tie from its first event to its second.
    Tie(Relation, u32, u32),
}
