#![tactic(auto)]

// Examples for the calls that build a case: the bounds of each table and of each number, and what a refusal leaves.
#[cfg(test)]
mod tests {
    use executions::{Cause, Event, Fault, Layer, Relation, Sort};
    use std::process::Abort;
    use std::test::Fail;
    use tables::OpenCase;

    fn fault(cause: Cause, place: u32) -> Fault {
        Layer::Entry.fault(cause, place)
    }

    // A case with the two tables that it is built in.
    #[derive(Drop)]
    struct Desk {
        case: OpenCase,
        events: [Event; 64],
        ties: [u64; 384],
    }

    impl Desk {
        // A blank case.
        fn open() -> Result<Desk, Fault> {
            let mut events = [Event::UNUSED; 64];
            let mut ties = [0u64; 384];
            let case = OpenCase::open(&mut events, &mut ties)?;
            Ok(Desk { case, events, ties })
        }

        fn enter(&mut self, event: Event) -> Result<usize, Fault> {
            self.case.enter(&mut self.events, &self.ties, event)
        }

        // Enters each event in turn, and compares the answer.
        fn try_events(&mut self, rt: &impl Abort, table: &[(Event, Result<usize, Fault>)]) {
            for (event, answer) in table {
                assert_eq!(rt; self.enter(*event), *answer);
            }
        }

        fn enter_all(&mut self, rt: &impl Abort, all: &[Event]) {
            for (number, event) in all.iter().enumerate() {
                assert_eq!(rt; self.enter(*event), Ok(number));
            }
        }

        // Ties each pair in turn, and compares the answer.
        fn try_ties(&mut self, rt: &impl Abort, table: &[(Relation, u32, u32, Result<(), Fault>)]) {
            for (relation, first, second, answer) in table {
                let number = relation.number() as u32;
                let tied = self
                    .case
                    .tie(&self.events, &mut self.ties, number, *first, *second);
                assert_eq!(rt; tied, *answer);
            }
        }
    }

    // The last thread and the last place enter, those past them do not, and a fence has no place.
    #[test]
    fn events_in_range(rt: HostRuntime) -> Result<(), Fail> {
        let mut desk = Desk::open()?;
        let out = Cause::OutOfRange;
        let table = [
            (Event::of(8, Sort::ReadOnce, 16), Ok(0)),
            (Event::of(9, Sort::ReadOnce, 16), Err(fault(out, 1))),
            (Event::of(8, Sort::ReadOnce, 17), Err(fault(out, 1))),
            (Event::of(1, Sort::ReadAcquire, 0), Err(fault(out, 1))),
            (Event::of(0, Sort::WriteOnce, 1), Ok(1)),
            (Event::of(0, Sort::WriteRelease, 1), Err(fault(out, 2))),
            (Event::of(0, Sort::ReadOnce, 1), Err(fault(out, 2))),
            (Event::of(0, Sort::Mb, 0), Err(fault(out, 2))),
            (Event::of(1, Sort::Rmb, 0), Ok(2)),
            (Event::of(8, Sort::Blank, 0), Ok(3)),
            (Event::of(1, Sort::Blank, 1), Err(fault(out, 4))),
            (
                Event {
                    thread: 1,
                    sort: 13,
                    place: 0,
                },
                Err(fault(out, 4)),
            ),
            (Event::UNUSED, Err(fault(out, 4))),
        ];
        desk.try_events(&rt, &table);
        Ok(())
    }

    #[test]
    fn sixty_four_events(rt: HostRuntime) -> Result<(), Fail> {
        let mut desk = Desk::open()?;
        let write = Event::of(1, Sort::WriteOnce, 1);
        desk.enter_all(&rt, &[write; 64]);
        assert_eq!(rt; desk.enter(write), Err(fault(Cause::TooManyEvents, 64)));
        assert_eq!(rt; desk.case.count(), 64);
        Ok(())
    }

    // A tie that is there, a second rf tie into a read, and a second rmw tie at an event: all by the second event.
    #[test]
    fn limits_of_ties(rt: HostRuntime) -> Result<(), Fail> {
        let mut desk = Desk::open()?;
        let read = Event::of(1, Sort::ReadOnce, 1);
        let write = Event::of(1, Sort::WriteOnce, 1);
        desk.enter_all(
            &rt,
            &[Event::of(0, Sort::WriteOnce, 1), read, read, write, write],
        );
        let table = [
            (Relation::Rf, 0, 1, Ok(())),
            (Relation::Rf, 0, 1, Err(fault(Cause::OverLimit, 1))),
            (Relation::Rf, 3, 1, Err(fault(Cause::OverLimit, 1))),
            (Relation::Rf, 3, 2, Ok(())),
            (Relation::Rmw, 1, 3, Ok(())),
            (Relation::Rmw, 1, 4, Err(fault(Cause::OverLimit, 4))),
            (Relation::Rmw, 2, 3, Err(fault(Cause::OverLimit, 3))),
            (Relation::Rmw, 2, 4, Ok(())),
            (Relation::Co, 0, 3, Ok(())),
            (Relation::Co, 0, 4, Ok(())),
            (Relation::Co, 0, 3, Err(fault(Cause::OverLimit, 3))),
            (Relation::Ctrl, 1, 3, Ok(())),
            (Relation::Ctrl, 1, 4, Ok(())),
        ];
        desk.try_ties(&rt, &table);
        Ok(())
    }

    // What does not fit: one row or more for each relation, and the pair in program order that does.
    #[test]
    fn ties_that_fit(rt: HostRuntime) -> Result<(), Fail> {
        let mut desk = Desk::open()?;
        let read = Event::of(1, Sort::ReadOnce, 1);
        let fence = Event::of(1, Sort::Mb, 0);
        let other = Event::of(1, Sort::WriteOnce, 2);
        desk.enter_all(
            &rt,
            &[
                Event::of(0, Sort::WriteOnce, 1),
                read,
                fence,
                other,
                Event::of(2, Sort::WriteOnce, 1),
            ],
        );
        let table = [
            (Relation::Rf, 3, 1, Err(fault(Cause::DoesNotFit, 3))),
            (Relation::Co, 4, 0, Err(fault(Cause::DoesNotFit, 4))),
            (Relation::Co, 4, 4, Err(fault(Cause::DoesNotFit, 4))),
            (Relation::Co, 0, 3, Err(fault(Cause::DoesNotFit, 0))),
            (Relation::Addr, 1, 2, Err(fault(Cause::DoesNotFit, 1))),
            (Relation::Data, 1, 4, Err(fault(Cause::DoesNotFit, 1))),
            (Relation::Ctrl, 3, 1, Err(fault(Cause::DoesNotFit, 3))),
            (Relation::Ctrl, 1, 1, Err(fault(Cause::DoesNotFit, 1))),
            (Relation::Rmw, 1, 3, Err(fault(Cause::DoesNotFit, 1))),
            (Relation::Ctrl, 1, 2, Ok(())),
            (Relation::Addr, 1, 3, Ok(())),
            (Relation::Data, 1, 3, Ok(())),
        ];
        desk.try_ties(&rt, &table);
        Ok(())
    }

    // Tables that are one element short are refused by every call and left as they were.
    #[test]
    fn short_tables(rt: HostRuntime) -> Result<(), Fail> {
        let write = Event::of(0, Sort::WriteOnce, 1);
        let mut events = [Event::UNUSED; 64];
        let mut ties = [0u64; 384];
        let mut case = OpenCase::open(&mut events, &mut ties)?;
        assert_eq!(rt; case.enter(&mut events, &ties, write), Ok(0));
        let short = fault(Cause::TooShort, 0);
        let mut few = [write; 63];
        let mut words = [7u64; 383];
        assert!(rt; OpenCase::open(&mut few, &mut ties).is_err());
        assert!(rt; OpenCase::open(&mut events, &mut words).is_err());
        assert_eq!(rt; case.enter(&mut few, &ties, write), Err(short));
        assert_eq!(rt; case.enter(&mut events, &words, write), Err(short));
        assert_eq!(rt; case.tie(&few, &mut ties, 9, 0, 0), Err(short));
        assert_eq!(rt; case.tie(&events, &mut words, 9, 0, 0), Err(short));
        assert_eq!(rt; case.untie(&few, &mut ties, 9, 0, 0), Err(short));
        assert_eq!(rt; case.untie(&events, &mut words, 9, 0, 0), Err(short));
        assert_eq!(rt; case.count(), 1);
        assert!(rt; few == [write; 63] && words == [7u64; 383]);
        assert!(rt; ties == [0u64; 384] && events[0] == write && events[1] == Event::UNUSED);
        Ok(())
    }

    // Longer tables keep what they have past the 64 records and the 384 words.
    #[test]
    fn long_tables(rt: HostRuntime) -> Result<(), Fail> {
        let write = Event::of(0, Sort::WriteOnce, 1);
        let mut events = [write; 66];
        let mut ties = [7u64; 386];
        let mut case = OpenCase::open(&mut events, &mut ties)?;
        assert!(rt;
            events[0] == Event::UNUSED
                && events[63] == Event::UNUSED
                && events[64] == write
                && events[65] == write
        );
        assert!(rt; ties[0] == 0 && ties[383] == 0 && ties[384] == 7 && ties[385] == 7);
        assert_eq!(rt; case.enter(&mut events, &ties, write), Ok(0));
        assert_eq!(rt;
            case.enter(&mut events, &ties, Event::of(1, Sort::WriteOnce, 1)),
            Ok(1)
        );
        let co = Relation::Co.number() as u32;
        assert_eq!(rt; case.tie(&events, &mut ties, co, 0, 1), Ok(()));
        assert!(rt; ties[64] == 2 && ties[384] == 7 && ties[385] == 7 && events[64] == write);
        assert_eq!(rt; case.untie(&events, &mut ties, co, 0, 1), Ok(()));
        assert!(rt; ties[64] == 0 && ties[384] == 7 && ties[385] == 7 && events[65] == write);
        Ok(())
    }
}
