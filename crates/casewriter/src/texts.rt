// Writing the text of a case, line by line.
ghost use Rattle.std.specs.Prelude.{◌≡◌, ◌+◌, ◌^◌, ◌<◌, ◌≤◌, length};
ghost use Rattle.std.specs.List.{flat_map};
ghost use Rattle.sources.specs.Snapshot.{execution};
ghost use Rattle.casetext.specs.Text.{line as line_of, event_lines, ties_in, text_of};
ghost use Rattle.casewriter.specs.Laid.{Put, Writes, listed};

use crate::bytes::Pen;
use crate::ties::{TieLines, TieNumbers, tie_line};
use caselines::Line;
use executions::{Event, Sort};
use sources::Snapshot;

// The line of an event; bytes that have no sort have none.
fn event_line(event: Event) -> Option<Line>
    ensures { listed result ≡ event_lines event }
{
    let Ok(sort) = Sort::try_from(event.sort) else {
        return None;
    };
    Some(Line::Event(sort, u32::from(event.thread), u32::from(event.place)))
}

// A line where there is one.
fn put_some(pen: &mut Pen, line: Option<Line>)
    requires { pen.old.at < 2 ^ 48 }
    ensures same { pen.new.buffer.ghost_name ≡ pen.old.buffer.ghost_name }
    ensures put { Put pen.old.at (flat_map line_of (listed line)) pen.old.buffer.now pen.new.buffer.now pen.new.at }
    ensures within { pen.new.at ≤ pen.old.at + 48 }
{
    if let Some(line) = line {
        pen.put_line(line);
    }
}

// The lines of the events.
fn put_events(case: &Snapshot, pen: &mut Pen)
    requires { pen.old.at < 2 ^ 40 }
    ensures same { pen.new.buffer.ghost_name ≡ pen.old.buffer.ghost_name }
    ensures put { Put pen.old.at (flat_map line_of (flat_map event_lines (execution case.now).events)) pen.old.buffer.now pen.new.buffer.now pen.new.at }
    ensures within { pen.new.at ≤ pen.old.at + 3072 }
{
    // A copy gives its events by number.
    for i in 0..case.count() {
        put_some(pen, event_line(case.event(i)));
    }
}

// The lines of the ties.
fn put_ties(case: &Snapshot, pen: &mut Pen)
    requires { pen.old.at < 2 ^ 40 }
    ensures same { pen.new.buffer.ghost_name ≡ pen.old.buffer.ghost_name }
    ensures put { Put pen.old.at (flat_map line_of (ties_in (execution case.now))) pen.old.buffer.now pen.new.buffer.now pen.new.at }
{
    for line in TieLines::of(case) {
        pen.put_line(line);
    }
}

// How many ties a case has: those that its text lists.
pub fn count_ties(case: &Snapshot) -> u32
    ensures { result ≡ length (ties_in (execution case.now)) }
{
    TieNumbers::of(case)
        .filter_map(|number| tie_line(case, number))
        .count() as u32
}

// The whole text.
fn put_text(case: &Snapshot, buffer: &mut [u8]) -> usize
    ensures { Put 0 (text_of (execution case.now)) buffer.old buffer.new result }
{
    let mut pen = Pen { buffer, at: 0 };
    pen.put_line(Line::Events(case.count() as u32));
    put_events(case, &mut pen);
    pen.put_line(Line::Ties(count_ties(case)));
    put_ties(case, &mut pen);
    pen.at
}

// Writes the text of a case to the front of a buffer and answers its length; None where the buffer is too short, which then stays as it is.
pub fn write_snapshot(case: &Snapshot, buffer: &mut [u8]) -> Option<usize>
    ensures { Writes (text_of (execution case.now)) buffer.old buffer.new result }
{
    // A first round in no room gives the length.
    let needed = put_text(case, &mut []);
    if needed > buffer.len() {
        return None;
    }
    Some(put_text(case, buffer))
}
