// Reading a text, sealing its case and writing it back.
ghost use Rattle.std.specs.Prelude.{◌≡◌, length};
ghost use Rattle.roundtrip.specs.Rewriting.{CopiedFrom, Rewritten};

use crate::kinds::Account;
use casewriter::{count_ties, write};
use executions::{Event, Fault};
use intake::{Refusal, Tables, read_sealed};
use sources::{CaseSource, Snapshot};
use tables::SealedCase;
use wellformed::check;

// Reads a text, seals its case and writes it to the front of a buffer.
pub fn rewrite(text: &[u8], buffer: &mut [u8]) -> Result<Account, Refusal>
    ensures { Rewritten text.now buffer.old buffer.new result }
{
    let mut tables = Tables::BLANK;
    let case = read_sealed(text, &mut tables)?;
    let copy = copied(&case, &tables.events, &tables.ties)?;
    let bytes = write(&case, &tables.events, &tables.ties, buffer)?;
    Ok(Account {
        events: copy.count(),
        ties: count_ties(&copy),
        bytes,
    })
}

// The case that the tables hold, to count what it has.
fn copied<'a>(case: &SealedCase, events: &'a [Event], ties: &'a [u64]) -> Result<Snapshot, Fault>
    ensures { CopiedFrom (length events.now) (length ties.now) case.now events.now ties.now result }
{
    let source = case.source(events, ties)?;
    check(&source)
}
