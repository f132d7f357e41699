// How far a reader is, and how it declines.
ghost use Rattle.std.specs.Prelude.{◌≡◌};
ghost use Rattle.casetext.specs.declared.kinds.TextFault.TheVariants.{Entry};

use executions::Fault;

// What the next line belongs to.
#[derive(Clone, Copy)]
pub enum Section {
    // The first line.
    Start,
    // The event lines, and then the line that counts the ties.
    InEvents,
    // The tie lines, and then the end.
    InTies,
}

// Where a reader stands in its text.
#[derive(Clone, Copy)]
pub struct Reader {
    pub(crate) section: Section,
    // How many lines of the section are left.
    pub(crate) left: u32,
    // The number of the next line, from 1.
    pub(crate) line: u32,
    // The least rank that the next tie line may have.
    pub(crate) least: u64,
}

// Why a text is refused.
#[derive(Clone, Copy, PartialEq, Eq, Debug)]
pub enum TextFault {
    // By the text itself: short tables, or the form or the order of the line that is the fault's place.
    Text(Fault),
    // By the entry that a line makes: the fault as the call gave it, and the number of the line.
    Entry(Fault, u32),
}

// A refused entry with its line.
#[derive(Clone, Copy)]
pub struct Located {
    pub(crate) fault: Fault,
    pub(crate) line: u32,
}

impl From<Located> for TextFault {
    ghost from_gives = { λ x y. y ≡ Entry x.fault x.line };

    fn from(located: Located) -> TextFault {
        TextFault::Entry(located.fault, located.line)
    }
}
