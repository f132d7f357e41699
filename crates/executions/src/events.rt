// Events, as they stand in the event table.
ghost use Rattle.std.specs.Prelude.{◌≡◌};
ghost use Rattle.executions.specs.Events.{is, is_read, is_write, in_program, in_range};
ghost use Rattle.executions.specs.Sorts.{sort_number};

use crate::sorts::Sort;

// One record of the event table: three bytes, of which not every combination is an event.
#[derive(Clone, Copy, PartialEq, Eq, Debug)]
pub struct Event {
    // 0 for the initial writes, 1 to 8 for the threads of the program.
    pub thread: u8,
    // The number of a `Sort`, as the caller wrote it: it may name none.
    pub sort: u8,
    // 1 to 16 for what a read or write accesses, 0 for a fence.
    pub place: u8,
}

impl Event {
    // A record that holds no event.
    pub const UNUSED: Event = Event {
        thread: 0,
        sort: 0,
        place: 0,
    };

    // The record of an event of a sort.
    pub fn of(thread: u8, sort: Sort, place: u8) -> Event
        ensures { result ≡ record { thread = thread; sort = sort_number sort; place = place } }
    {
        Event {
            thread,
            sort: sort.number(),
            place,
        }
    }

    pub fn is(&self, sort: Sort) -> bool
        ensures { result ≡ is sort self.now }
    {
        self.sort == sort.number()
    }

    // Reads and writes are told by two sorts each: one function for both would have to be handed the sorts.
    pub fn is_read(&self) -> bool
        ensures { result ≡ is_read self.now }
    {
        self.is(Sort::ReadOnce) || self.is(Sort::ReadAcquire)
    }

    pub fn is_write(&self) -> bool
        ensures { result ≡ is_write self.now }
    {
        self.is(Sort::WriteOnce) || self.is(Sort::WriteRelease)
    }

    // Whether the event is in a thread of the program, and not an initial write.
    pub fn in_program(&self) -> bool
        ensures { result ≡ in_program self.now }
    {
        matches!(self.thread, 1..=8)
    }

    // Whether the three bytes are an event.
    pub fn in_range(&self) -> bool
        ensures { result ≡ in_range self.now }
    {
        if self.is_read() || self.is_write() {
            let initial = self.is(Sort::WriteOnce) && self.thread == 0;
            matches!(self.place, 1..=16) && (self.in_program() || initial)
        } else {
            let fence = Sort::Rmb.number() <= self.sort && self.sort <= Sort::Blank.number();
            fence && self.place == 0 && self.in_program()
        }
    }
}
