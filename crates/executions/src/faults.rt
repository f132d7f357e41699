// How the bench declines: a fault says what is wrong, which part of the bench found it, and where.
ghost use Rattle.std.specs.Prelude.{◌≡◌, Some};
ghost use Rattle.executions.specs.Faults.{cause_number, layer_number, fault_told};

use std::fmt;

// What is wrong.
#[derive(Clone, Copy, PartialEq, Eq, Debug)]
pub enum Cause {
    // A table or the sheet is too short.
    TooShort = 1,
    TooManyEvents = 2,
    OutOfRange = 3,
    NoSuchEvent = 4,
    NoSuchRelation = 5,
    DoesNotFit = 6,
    // The tie is there already, or a read would have two rf ties, or an event would stand in two rmw ties.
    OverLimit = 7,
    NoSuchTie = 8,
    ReadWithoutRf = 9,
    // A place has no initial write, or more than one.
    InitialWrites = 10,
    CoherenceNotTotal = 11,
    LocksNotPaired = 12,
    // A line is not of its form, or there is text after the end.
    LineForm = 13,
    LineOrder = 14,
    BufferTooShort = 15,
}

// The part of the bench that declines.
#[derive(Clone, Copy, PartialEq, Eq, Debug)]
pub enum Layer {
    // The calls that build a case: open, enter, tie and untie.
    Entry = 1,
    // The check of a whole case.
    Check = 2,
    // The case text.
    Text = 3,
}

// The place is what the cause speaks of: an event, a relation, a place of the case, a line, or 0.
#[derive(Clone, Copy, PartialEq, Eq, Debug)]
pub struct Fault {
    pub cause: Cause,
    pub layer: Layer,
    pub place: u32,
}

impl Layer {
    // A fault that this layer found.
    pub fn fault(self, cause: Cause, place: u32) -> Fault
        ensures { result ≡ record { cause = cause; layer = self; place = place } }
    {
        Fault {
            cause,
            layer: self,
            place,
        }
    }
}

impl Fault {
    // The published number of its cause.
    pub fn number(&self) -> u8
        ensures { result ≡ cause_number self.now.cause }
    {
        self.cause as u8
    }

    // The published number of its layer.
    pub fn layer_number(&self) -> u8
        ensures { result ≡ layer_number self.now.layer }
    {
        self.layer as u8
    }
}

impl fmt::Display for Fault {
    ghost output = { λ fault. Some (fault_told fault) };

    fn fmt<W: fmt::Write>(&self, f: &mut fmt::Formatter<W>) -> fmt::Result {
        let (number, layer, place) = (self.number(), self.layer_number(), self.place);
        write!(f, "number {number}, layer {layer}, place {place}")
    }
}
