// What read says to a text. Causes and layers are asked for by their published numbers.
use casetext::TextFault;
use casetext::reading::read;
use executions::{Event, Fault};

// Whether a text is refused by itself: cause and line.
pub(crate) fn unread(text: &[u8], cause: u8, line: u32) -> bool {
    match refusal(text) {
        Some(TextFault::Text(fault)) => says(fault, cause, 3, line),
        _ => false,
    }
}

// Whether a text is refused by an entry: cause, place and line.
pub(crate) fn unentered(text: &[u8], cause: u8, place: u32, line: u32) -> bool {
    match refusal(text) {
        Some(TextFault::Entry(fault, at)) => says(fault, cause, 1, place) && at == line,
        _ => false,
    }
}

// Whether a text is read.
pub(crate) fn is_read(text: &[u8]) -> bool {
    refusal(text).is_none()
}

fn refusal(text: &[u8]) -> Option<TextFault> {
    let mut events = [Event::UNUSED; 64];
    let mut ties = [0u64; 384];
    read(text, &mut events, &mut ties).err()
}

// Whether a fault has these numbers.
pub(crate) fn says(fault: Fault, cause: u8, layer: u8, place: u32) -> bool {
    fault.number() == cause && fault.layer_number() == layer && fault.place == place
}
