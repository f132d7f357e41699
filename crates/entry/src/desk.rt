// A case with the two tables that it is built in.
use crate::report::{Named, Tie, entered, tied};
use executions::{Event, Fault, Relation};
use rows::members;
use std::io;
use tables::{OpenCase, SealedCase};

#[derive(Drop)]
pub(crate) struct Desk {
    pub(crate) case: OpenCase,
    pub(crate) events: [Event; 64],
    pub(crate) ties: [u64; 384],
}

impl Desk {
    // A blank case.
    pub(crate) fn open() -> Result<Desk, Fault> {
        let mut events = [Event::UNUSED; 64];
        let mut ties = [0u64; 384];
        let case = OpenCase::open(&mut events, &mut ties)?;
        Ok(Desk { case, events, ties })
    }

    pub(crate) fn enter(&mut self, rt: &impl Print, event: Event) -> io::Result<()> {
        let answer = self.case.enter(&mut self.events, &self.ties, event);
        entered(rt, event, answer)
    }

    // The same event so many times, with nothing said of it.
    pub(crate) fn enter_again(&mut self, event: Event, times: usize) {
        for _ in 0..times {
            let _ = self.case.enter(&mut self.events, &self.ties, event);
        }
    }

    pub(crate) fn tie(&mut self, rt: &impl Print, asked: Tie) -> io::Result<()> {
        let (events, ties) = (&self.events, &mut self.ties);
        let answer = self
            .case
            .tie(events, ties, asked.relation, asked.first, asked.second);
        tied(rt, "tie", asked, answer)
    }

    // It differs from tie in the call alone; a closure for that would need all five of its parameters.
    pub(crate) fn untie(&mut self, rt: &impl Print, asked: Tie) -> io::Result<()> {
        let (events, ties) = (&self.events, &mut self.ties);
        let answer = self
            .case
            .untie(events, ties, asked.relation, asked.first, asked.second);
        tied(rt, "untie", asked, answer)
    }

    // Seals the case, or hands it back in its tables with the fault.
    pub(crate) fn seal(self) -> Result<SealedCase, (Desk, Fault)> {
        let Desk { case, events, ties } = self;
        case.seal(&events, &ties)
            .map_err(|(case, fault)| (Desk { case, events, ties }, fault))
    }

    // The events that the table holds.
    pub(crate) fn tell_events(&self, rt: &impl Print) -> io::Result<()> {
        let count = self.case.count();
        for (number, event) in self.events.iter().take(count).enumerate() {
            println!(rt; "event {number}: {}", Named(*event))?;
        }
        Ok(())
    }

    // The ties that the table holds.
    pub(crate) fn tell_ties(&self, rt: &impl Print) -> io::Result<()> {
        for (relation, rows) in Relation::ALL.iter().zip(self.ties.chunks(64)) {
            tell_rows(rt, *relation, rows)?;
        }
        Ok(())
    }
}

fn tell_rows(rt: &impl Print, relation: Relation, rows: &[u64]) -> io::Result<()> {
    for (first, row) in rows.iter().enumerate() {
        tell_row(rt, relation, first, *row)?;
    }
    Ok(())
}

fn tell_row(rt: &impl Print, relation: Relation, first: usize, row: u64) -> io::Result<()> {
    for second in members(row) {
        println!(rt; "{relation} from {first} to {second}")?;
    }
    Ok(())
}
