// Reading a case text into two tables.
ghost use Rattle.std.specs.Prelude.{◌≡◌, ◌<◌, length};
ghost use Rattle.tables.specs.Tables.{tables, plain_of, Exact};
ghost use Rattle.casetext.specs.Promises.{Spells};
ghost use Rattle.casetext.specs.Reading.{start, done, Tails, Scanned, Reads};

use crate::kinds::{Reader, Section, TextFault};
use crate::steps::{take_line, text_fault};
use caselines::fields::cut;
use executions::{Cause, Event};
use tables::OpenCase;

// Takes the lines of a text one by one.
fn take_lines(
    text: &[u8],
    case: &mut OpenCase,
    events: &mut [Event],
    ties: &mut [u64],
) -> Result<(), TextFault>
    ensures scanned { Scanned (length events.old) (length ties.old) text.now (plain_of (tables case.old events.old ties.old)) (plain_of (tables case.new events.new ties.new)) result }
    ensures exact { Exact (tables case.old events.old ties.old) → Exact (tables case.new events.new ties.new) }
    ensures tail { Tails events.old ties.old events.new ties.new }
{
    let mut reader = first();
    let mut rest = text;
    // What has no byte 10 at its end is no line and is left in `rest`, which an iterator over lines would not show.
    while let Some((bytes, after)) = cut(rest, b'\n') {
        reader = take_line(reader, bytes, case, events, ties)?;
        rest = after;
    }
    if is_done(reader) && rest.is_empty() {
        Ok(())
    } else {
        Err(text_fault(Cause::LineForm, reader.line))
    }
}

// The reader at the first line.
fn first() -> Reader
    ensures { result ≡ start }
{
    Reader {
        section: Section::Start,
        left: 0,
        line: 1,
        least: 0,
    }
}

// Whether all tie lines are read.
fn is_done(reader: Reader) -> bool
    ensures { result ≡ done reader }
{
    match reader.section {
        Section::InTies => reader.left == 0,
        _ => false,
    }
}

// Reads a case text into two tables, which it sets to zeros first.
// Every refusal but that of short tables leaves them blank.
pub fn read(text: &[u8], events: &mut [Event], ties: &mut [u64]) -> Result<OpenCase, TextFault>
    ensures reads { Reads text.now events.old ties.old events.new ties.new result }
    ensures spells { Spells text.now (length events.old) (length ties.old) events.new ties.new result }
{
    read_into(text, events, ties)
}

// Opens the tables, takes the lines, and opens them anew where a line is refused: so a match, and no `?`.
fn read_into(text: &[u8], events: &mut [Event], ties: &mut [u64]) -> Result<OpenCase, TextFault>
    ensures { Reads text.now events.old ties.old events.new ties.new result }
{
    let Ok(mut case) = OpenCase::open(events, ties) else {
        return Err(text_fault(Cause::TooShort, 0));
    };
    match take_lines(text, &mut case, events, ties) {
        Ok(_) => Ok(case),
        Err(fault) => {
            let _ = OpenCase::open(events, ties);
            Err(fault)
        }
    }
}
