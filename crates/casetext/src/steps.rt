// The steps of reading: what one line does to the case.
// The case and its tables are passed one by one, since by its type each step then says which of the three it may write;
// one struct of three `&mut` would leave that to every contract.
// Each step that goes on to the next line takes its number with the bound: as a ghost field of the reader it would ask instead,
// of each step that counts, that the count has at most five digits.
ghost use Rattle.std.specs.Prelude.{◌≡◌, ◌+◌, ◌^◌, ◌<◌, min, length, drop};
ghost use Rattle.executions.specs.Ties.{relation_number};
ghost use Rattle.tables.specs.Plain.{Plain, enter_plain, tie_plain};
ghost use Rattle.tables.specs.Tables.{tables, Does};
ghost use Rattle.casetext.specs.Reading.{moved, rank, record_of, text_fault, located, event_step, ties_step, tie_step, in_section, line_step, Tails};

use crate::kinds::{Located, Reader, Section, TextFault};
use caselines::Line;
use caselines::reading::read_line;
use executions::{Cause, Event, Layer, Relation, Sort};
use tables::OpenCase;

// A fault of the text itself.
pub(crate) fn text_fault(cause: Cause, place: u32) -> TextFault
    ensures { result ≡ text_fault cause place }
{
    TextFault::Text(Layer::Text.fault(cause, place))
}

// The reader at the next line.
fn moved(reader: Reader, section: Section, left: u32, least: u64) -> Reader
    requires { reader.line < 2 ^ 31 }
    ensures { result ≡ moved reader section left least }
{
    Reader {
        section,
        left,
        line: reader.line + 1,
        least,
    }
}

// A number as a byte; one that does not fit becomes 255, which no thread and no place is.
fn byte(n: u32) -> u8
    ensures { result ≡ min n 255 }
{
    n.min(255) as u8
}

fn record_of(sort: Sort, thread: u32, place: u32) -> Event
    ensures { result ≡ record_of sort thread place }
{
    Event::of(byte(thread), sort, byte(place))
}

// Where a tie stands in the order of the tie lines.
fn rank(relation: Relation, first: u32, second: u32) -> u64
    ensures value { result ≡ rank relation first second }
    ensures bound { result < 2 ^ 63 }
{
    (u64::from(relation.number()) * 100000 + u64::from(first)) * 100000 + u64::from(second)
}

// Enters the event of a line.
fn enter_at(
    line: u32,
    event: Event,
    case: &mut OpenCase,
    events: &mut [Event],
    ties: &[u64],
) -> Result<(), Located>
    ensures does { Does (λ p. located line (enter_plain (length events.old) (length ties.now) event p)) (tables case.old events.old ties.now) (tables case.new events.new ties.now) result }
    ensures tail { drop 64 events.new ≡ drop 64 events.old }
{
    case.enter(events, ties, event)
        .map_err(|fault| Located { fault, line })?;
    Ok(())
}

// Adds the tie of a line.
fn tie_at(
    line: u32,
    relation: Relation,
    first: u32,
    second: u32,
    case: &OpenCase,
    events: &[Event],
    ties: &mut [u64],
) -> Result<(), Located>
    ensures does { Does (λ p. located line (tie_plain (length events.now) (length ties.old) (relation_number relation) first second p)) (tables case.now events.now ties.old) (tables case.now events.now ties.new) result }
    ensures tail { drop 384 ties.new ≡ drop 384 ties.old }
{
    case.tie(events, ties, u32::from(relation.number()), first, second)
        .map_err(|fault| Located { fault, line })?;
    Ok(())
}

// An event line, while lines are left.
fn event_step(
    reader: Reader,
    event: (Sort, u32, u32),
    case: &mut OpenCase,
    events: &mut [Event],
    ties: &[u64],
) -> Result<Reader, TextFault>
    requires { reader.line < 2 ^ 31 }
    ensures does { Does (event_step (length events.old) (length ties.now) reader event.0 event.1 event.2) (tables case.old events.old ties.now) (tables case.new events.new ties.now) result }
    ensures tail { drop 64 events.new ≡ drop 64 events.old }
{
    if reader.left == 0 {
        return Err(text_fault(Cause::LineForm, reader.line));
    }
    let next = moved(reader, Section::InEvents, reader.left - 1, 0);
    let (sort, thread, place) = event;
    enter_at(
        reader.line,
        record_of(sort, thread, place),
        case,
        events,
        ties,
    )?;
    Ok(next)
}

// A tie line, while lines are left: its order, and then its entry.
fn tie_step(
    reader: Reader,
    tie: (Relation, u32, u32),
    case: &OpenCase,
    events: &[Event],
    ties: &mut [u64],
) -> Result<Reader, TextFault>
    requires { reader.line < 2 ^ 31 }
    ensures does { Does (tie_step (length events.now) (length ties.old) reader tie.0 tie.1 tie.2) (tables case.now events.now ties.old) (tables case.now events.now ties.new) result }
    ensures tail { drop 384 ties.new ≡ drop 384 ties.old }
{
    if reader.left == 0 {
        return Err(text_fault(Cause::LineForm, reader.line));
    }
    let (relation, first, second) = tie;
    let rank = rank(relation, first, second);
    if rank < reader.least {
        return Err(text_fault(Cause::LineOrder, reader.line));
    }
    tie_at(reader.line, relation, first, second, case, events, ties)?;
    Ok(moved(reader, Section::InTies, reader.left - 1, rank + 1))
}

// The count of the ties, once no event line is left.
fn ties_step(reader: Reader, count: u32) -> Result<Reader, TextFault>
    requires { reader.line < 2 ^ 31 }
    ensures { (p : Plain) → ties_step reader count p ≡ (p, result) }
{
    if reader.left == 0 {
        Ok(moved(reader, Section::InTies, count, 0))
    } else {
        Err(text_fault(Cause::LineForm, reader.line))
    }
}

// What a line does in each section.
fn step(
    reader: Reader,
    line: Line,
    case: &mut OpenCase,
    events: &mut [Event],
    ties: &mut [u64],
) -> Result<Reader, TextFault>
    requires { reader.line < 2 ^ 31 }
    ensures does { Does (in_section reader.section line (length events.old) (length ties.old) reader) (tables case.old events.old ties.old) (tables case.new events.new ties.new) result }
    ensures tail { Tails events.old ties.old events.new ties.new }
{
    match (reader.section, line) {
        (Section::Start, Line::Events(count)) => Ok(moved(reader, Section::InEvents, count, 0)),
        (Section::InEvents, Line::Event(sort, thread, place)) => {
            event_step(reader, (sort, thread, place), case, events, ties)
        }
        (Section::InEvents, Line::Ties(count)) => ties_step(reader, count),
        (Section::InTies, Line::Tie(relation, first, second)) => {
            tie_step(reader, (relation, first, second), case, events, ties)
        }
        _ => Err(text_fault(Cause::LineForm, reader.line)),
    }
}

// What the bytes of a line do, without the byte 10 at its end.
pub(crate) fn take_line(
    reader: Reader,
    bytes: &[u8],
    case: &mut OpenCase,
    events: &mut [Event],
    ties: &mut [u64],
) -> Result<Reader, TextFault>
    requires { reader.line < 2 ^ 31 }
    ensures does { Does (line_step (length events.old) (length ties.old) reader bytes.now) (tables case.old events.old ties.old) (tables case.new events.new ties.new) result }
    ensures tail { Tails events.old ties.old events.new ties.new }
{
    match read_line(bytes) {
        Some(line) => step(reader, line, case, events, ties),
        None => Err(text_fault(Cause::LineForm, reader.line)),
    }
}
