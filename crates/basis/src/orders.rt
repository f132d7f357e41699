// The base relations, row by row, and the events of a sort. What is left of a base relation here is its row and its name, and of the reads
// and the writes two sorts: one function for several would say no less.
ghost use Rattle.std.specs.Prelude.{◌≡◌, ◌<◌};
ghost use Rattle.rows.specs.Row.{bit};
ghost use Rattle.relations.specs.View.{rel, size};
ghost use Rattle.executions.specs.Execution.{count as events_of, event_at};
ghost use Rattle.executions.specs.Events.{is_read, is_write};
ghost use Rattle.sources.specs.Snapshot.{execution};
ghost use Rattle.basis.specs.Meaning.{po, int, loc, tied, accesses as accessed, of_sort};

use crate::groups::Grouped;
use executions::{Relation as Tie, Sort};
use relations::Relation;
use rows::{below, has, with};
use sources::Snapshot;

// The ties of a relation.
pub(crate) fn ties(case: &Snapshot, relation: Tie) -> Relation
    ensures pairs { rel result ≡ tied relation (execution case.now) }
    ensures events { size result ≡ events_of (execution case.now) }
{
    Relation::by_rows(case.count(), |a| case.row(relation, a))
}

impl<'a> Grouped<'a> {
    // Program order.
    pub(crate) fn program_order(&self) -> Relation
        ensures pairs { rel result ≡ po (execution self.now.case.now) }
        ensures events { size result ≡ events_of (execution self.now.case.now) }
    {
        Relation::by_rows(self.case.count(), |a| self.later(a))
    }

    // The later events of the same thread, for one of the 64 numbers that rows have, so that the next number fits.
    fn later(&self, a: usize) -> u64
        requires { a < 64 }
        ensures { bit result ≡ po (execution self.now.case.now) a }
    {
        let event = self.case.event(a);
        if event.in_program() {
            self.threads[event.thread as usize] & !below(a + 1)
        } else {
            0
        }
    }

    // Pairs of one thread.
    pub(crate) fn internal(&self) -> Relation
        ensures pairs { rel result ≡ int (execution self.now.case.now) }
        ensures events { size result ≡ events_of (execution self.now.case.now) }
    {
        Relation::by_rows(self.case.count(), |a| self.fellows(a))
    }

    // The event itself and all of its thread of the program.
    fn fellows(&self, a: usize) -> u64
        requires { a < events_of (execution self.now.case.now) }
        ensures { bit result ≡ int (execution self.now.case.now) a }
    {
        let event = self.case.event(a);
        if event.in_program() {
            self.threads[event.thread as usize]
        } else {
            with(0, a)
        }
    }

    // Reads and writes of one place.
    pub(crate) fn located(&self) -> Relation
        ensures pairs { rel result ≡ loc (execution self.now.case.now) }
        ensures events { size result ≡ events_of (execution self.now.case.now) }
    {
        let accesses = self.accesses();
        Relation::by_rows(self.case.count(), |a| self.beside(accesses, a))
    }

    // The reads and writes of the same place.
    fn beside(&self, accesses: u64, a: usize) -> u64
        requires { bit accesses ≡ accessed (execution self.now.case.now) }
        ensures { bit result ≡ loc (execution self.now.case.now) a }
    {
        if has(accesses, a) {
            self.places[self.case.event(a).place as usize] & accesses
        } else {
            0
        }
    }

    // The reads and writes.
    fn accesses(&self) -> u64
        ensures { bit result ≡ accessed (execution self.now.case.now) }
    {
        self.reads() | self.writes()
    }

    // The reads.
    pub(crate) fn reads(&self) -> u64
        ensures { bit result ≡ (λ a. is_read (event_at (execution self.now.case.now) a)) }
    {
        self.sorted(Sort::ReadOnce) | self.sorted(Sort::ReadAcquire)
    }

    // The writes.
    pub(crate) fn writes(&self) -> u64
        ensures { bit result ≡ (λ a. is_write (event_at (execution self.now.case.now) a)) }
    {
        self.sorted(Sort::WriteOnce) | self.sorted(Sort::WriteRelease)
    }

    // The events of a sort.
    pub(crate) fn sorted(&self, sort: Sort) -> u64
        ensures { bit result ≡ of_sort sort (execution self.now.case.now) }
    {
        self.sorts[sort.number() as usize]
    }
}
