// Writing a sealed case.
ghost use Rattle.std.specs.Prelude.{◌≡◌, length, take};
ghost use Rattle.tables.specs.Tables.{sealed_plain};
ghost use Rattle.casewriter.specs.Written.{Written};

use crate::texts::write_snapshot;
use executions::{Cause, Event, Fault, Layer};
use tables::SealedCase;
use wellformed::check;

// Writes the text of a sealed case to the front of a buffer and answers how many bytes it has. A refusal leaves the buffer as it was.
pub fn write<'a>(
    case: &SealedCase,
    events: &'a [Event],
    ties: &'a [u64],
    buffer: &mut [u8],
) -> Result<usize, Fault>
    ensures { Written (length events.now) (length ties.now) (sealed_plain case.now events.now ties.now) buffer.old buffer.new result }
{
    let Ok(source) = case.source(events, ties) else {
        return Err(Layer::Text.fault(Cause::TooShort, 0));
    };
    // The tables are the caller's and may have changed since the case was sealed.
    let copy = check(&source)?;
    write_snapshot(&copy, buffer).ok_or(Layer::Text.fault(Cause::BufferTooShort, 0))
}

// The bytes in the front of a buffer: with the count that write answered, the text.
pub fn front(buffer: &[u8], count: usize) -> &[u8]
    ensures { result.now ≡ take count buffer.now }
{
    &buffer[..count.min(buffer.len())]
}
