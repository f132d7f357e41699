// The smallest and the largest relations.
use super::*;
use relations::Relation;
use searches::{order, shortest_cycle};
use std::test::Fail;

// Each of n events to the next, and the last to the first: a relation takes pairs of their numbers.
fn ring(n: usize) -> Relation {
    let mut x = Relation::empty(n);
    for b in 1..n {
        x.add(b - 1, b);
    }
    if n > 0 {
        x.add(n - 1, 0);
    }
    x
}

#[test]
fn empty_relation(rt: HostRuntime) -> Result<(), Fail> {
    let x = Relation::empty(64);
    assert!(rt; x.acyclic());
    assert!(rt; x.plus().row(0) == 0);
    assert!(rt; shortest_cycle(&x).is_none());
    let o = order(&x).ok_or("an empty relation has an order")?;
    assert!(rt; o.places[0] == 0 && o.places[63] == 63);
    Ok(())
}

#[test]
fn no_events(rt: HostRuntime) {
    let mut x = Relation::empty(0);
    x.add(0, 0);
    assert!(rt; x.acyclic() && x.row(0) == 0);
    assert!(rt; order(&x).is_some());
}

#[test]
fn past_the_range(rt: HostRuntime) {
    let mut x = Relation::empty(100);
    assert_eq!(rt; x.events(), 64);
    x.add(64, 0);
    x.add(0, 64);
    x.replace(64, u64::MAX);
    assert!(rt; x.row(0) == 0 && x.row(64) == 0 && !x.has(64, 0));
}

#[test]
fn self_loop(rt: HostRuntime) -> Result<(), Fail> {
    let mut x = Relation::empty(10);
    x.add(3, 4);
    x.add(5, 5);
    assert!(rt; !x.acyclic() && order(&x).is_none());
    let c = shortest_cycle(&x).ok_or("a loop is a cycle")?;
    assert!(rt; c.steps == 1 && c.events[0] == 5);
    Ok(())
}

#[test]
fn ring_of_64(rt: HostRuntime) -> Result<(), Fail> {
    let x = ring(64);
    assert!(rt; !x.acyclic() && order(&x).is_none());
    assert!(rt; x.plus().row(63) == u64::MAX);
    let c = shortest_cycle(&x).ok_or("a ring is a cycle")?;
    assert!(rt; c.steps == 64 && c.events[0] == 0 && c.events[63] == 63);
    Ok(())
}

#[test]
fn full_relation(rt: HostRuntime) -> Result<(), Fail> {
    let x = Relation::product(64, u64::MAX, u64::MAX);
    assert!(rt; x.plus().row(7) == u64::MAX && x.seq(&x).row(7) == u64::MAX);
    let distinct = x.diff(&Relation::identity(64));
    let c = shortest_cycle(&distinct).ok_or("two events that are related both ways are a cycle")?;
    assert!(rt; c.steps == 2 && c.events[0] == 0 && c.events[1] == 1);
    Ok(())
}

// A write w (0), a read of it r (1) and a later write (2): the read comes before the later write.
#[test]
fn from_reads_of_three(rt: HostRuntime) {
    let mut rf = Relation::empty(3);
    rf.add(0, 1);
    let mut co = Relation::empty(3);
    co.add(0, 2);
    assert_eq!(rt; from_reads(&rf, &co).row(1), 4);
    let mut po_loc = Relation::empty(3);
    po_loc.add(1, 2);
    assert!(rt; coherent(&po_loc, &rf, &co));
    po_loc.add(2, 1);
    assert!(rt; !coherent(&po_loc, &rf, &co));
    assert!(rt; stale_read(&po_loc, &rf, &co).is_some());
    assert!(rt; !happens_before(&po_loc, &rf).has(0, 1));
}
