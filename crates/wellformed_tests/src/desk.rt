// A case that is built by calls, open or sealed, with the two tables that it is built in.
use executions::{Event, Relation};
use std::process::Abort;
use std::test::Fail;
use tables::OpenCase;

#[derive(Drop)]
pub(crate) struct Desk<C> {
    pub(crate) case: C,
    pub(crate) events: [Event; 64],
    pub(crate) ties: [u64; 384],
}

impl Desk<OpenCase> {
    // A case of these events and ties.
    pub(crate) fn built(
        rt: &impl Abort,
        all: &[Event],
        pairs: &[(Relation, u32, u32)],
    ) -> Result<Desk<OpenCase>, Fail> {
        let mut events = [Event::UNUSED; 64];
        let mut ties = [0u64; 384];
        let case = OpenCase::open(&mut events, &mut ties)?;
        let mut desk = Desk { case, events, ties };
        desk.enter_all(rt, all);
        desk.tie_all(rt, pairs);
        Ok(desk)
    }

    fn enter_all(&mut self, rt: &impl Abort, all: &[Event]) {
        for e in all {
            assert!(rt; self.case.enter(&mut self.events, &self.ties, *e).is_ok());
        }
    }

    fn tie_all(&mut self, rt: &impl Abort, pairs: &[(Relation, u32, u32)]) {
        for (relation, first, second) in pairs {
            let number = relation.number() as u32;
            let answer = self
                .case
                .tie(&self.events, &mut self.ties, number, *first, *second);
            assert_eq!(rt; answer, Ok(()));
        }
    }
}
