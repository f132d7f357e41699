// The calls of a run and what they answer.
use executions::{Event, Fault};
use rulings::{Ruling, SheetRow};
use tables::{OpenCase, SealedCase};

// A call, with its arguments but for the tables. Of its sheet a judge gives the number of rows. A tie names its relation by a number, since
// a caller may name one that there is not.
#[derive(Clone, Copy)]
pub enum Call {
    Enter(Event),
    Tie(u32, u32, u32),
    Untie(u32, u32, u32),
    Seal,
    Reopen,
    Judge(usize),
}

// What a call answers.
#[derive(Clone, Copy)]
pub enum Answer {
    // The number of the event.
    Entered(usize),
    Done,
    Refused(Fault),
    // The ruling, and what the sheet then says.
    Ruled(Ruling, [SheetRow; 64]),
    // The call is not one of an open case, or not one of a sealed one. Made directly, it does not compile.
    OtherState,
}

// The case of a run.
#[derive(Drop)]
pub enum State {
    Open(OpenCase),
    Sealed(SealedCase),
}
