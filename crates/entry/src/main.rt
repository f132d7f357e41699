// Builds one candidate execution by calls and shows every way in which these calls decline.
// For each step it prints what was asked and what was answered, and at the end what the tables hold.
#![tactic(auto)]

mod desk;
mod report;

use desk::Desk;
use executions::{Event, Relation, Sort};
use report::{Tie, entered, opened, tied};
use std::io;
use tables::OpenCase;

fn main(rt: HostRuntime) -> io::Result<()> {
    println!(rt; "A case of three events at one place")?;
    let Ok(mut desk) = Desk::open() else {
        return println!(rt; "the tables are too short");
    };
    println!(rt; "open 64 records, 384 words: a blank case")?;
    enter_three(&rt, &mut desk)?;
    tie_them(&rt, &mut desk)?;
    println!(rt; "What the calls decline")?;
    decline_events(&rt, &mut desk)?;
    decline_ties(&rt, &mut desk)?;
    decline_short_tables(&rt, &mut desk)?;
    decline_a_full_case(&rt)?;
    println!(rt; "A tie taken out and put back")?;
    untie_and_tie(&rt, &mut desk)?;
    println!(rt; "What the tables hold")?;
    desk.tell_events(&rt)?;
    desk.tell_ties(&rt)?;
    println!(rt; "Sealing")?;
    seal_without_rf(&rt, desk)
}

// An initial write, and a read and a write of the same place in one thread.
fn enter_three(rt: &impl Print, desk: &mut Desk) -> io::Result<()> {
    let asked = [
        Event::of(0, Sort::WriteOnce, 1),
        Event::of(1, Sort::ReadOnce, 1),
        Event::of(1, Sort::WriteOnce, 1),
    ];
    for e in asked {
        desk.enter(rt, e)?;
    }
    Ok(())
}

// The read takes its value from the later write, which comes after the initial one in coherence order.
fn tie_them(rt: &impl Print, desk: &mut Desk) -> io::Result<()> {
    desk.tie(rt, Tie::of(Relation::Rf, 2, 1))?;
    desk.tie(rt, Tie::of(Relation::Co, 0, 2))
}

fn decline_events(rt: &impl Print, desk: &mut Desk) -> io::Result<()> {
    let asked = [
        Event::of(9, Sort::ReadOnce, 1),
        Event::of(1, Sort::ReadOnce, 17),
        Event::of(0, Sort::WriteRelease, 1),
        Event::of(1, Sort::Mb, 1),
        Event {
            thread: 1,
            sort: 13,
            place: 0,
        },
    ];
    for e in asked {
        desk.enter(rt, e)?;
    }
    Ok(())
}

fn decline_ties(rt: &impl Print, desk: &mut Desk) -> io::Result<()> {
    let asked = [
        // no such relation, then no such event, the first one named before the second
        Tie {
            relation: 7,
            first: 0,
            second: 1,
        },
        Tie::of(Relation::Rf, 3, 99999),
        Tie::of(Relation::Rf, 2, 256),
        // a read does not give a value, and coherence does not lead to an initial write
        Tie::of(Relation::Rf, 1, 2),
        Tie::of(Relation::Co, 2, 0),
        // a tie that is there, and a second write for one read
        Tie::of(Relation::Rf, 2, 1),
        Tie::of(Relation::Rf, 0, 1),
    ];
    for t in asked {
        desk.tie(rt, t)?;
    }
    desk.untie(rt, Tie::of(Relation::Ctrl, 1, 2))
}

// Tables that are one element short are declined by every call.
fn decline_short_tables(rt: &impl Print, desk: &mut Desk) -> io::Result<()> {
    let mut few = [Event::UNUSED; 63];
    let answer = OpenCase::open(&mut few, &mut desk.ties);
    opened(rt, "63 records, 384 words", answer)?;
    let mut fewer = [0u64; 383];
    let answer = OpenCase::open(&mut desk.events, &mut fewer);
    opened(rt, "64 records, 383 words", answer)?;
    let fence = Event::of(1, Sort::Mb, 0);
    let answer = desk.case.enter(&mut desk.events, &fewer, fence);
    entered(rt, fence, answer)?;
    let asked = Tie::of(Relation::Rf, 2, 1);
    let Tie {
        relation,
        first,
        second,
    } = asked;
    let answer = desk
        .case
        .tie(&desk.events, &mut fewer, relation, first, second);
    tied(rt, "tie", asked, answer)?;
    let answer = desk
        .case
        .untie(&few, &mut desk.ties, relation, first, second);
    tied(rt, "untie", asked, answer)
}

// Another case, in tables of its own: 64 events enter and the next one does not.
fn decline_a_full_case(rt: &impl Print) -> io::Result<()> {
    let Ok(mut full) = Desk::open() else {
        return rt.println("the tables are too short");
    };
    let fence = Event::of(8, Sort::Blank, 0);
    full.enter_again(fence, 63);
    full.enter(rt, fence)?;
    full.enter(rt, fence)
}

fn untie_and_tie(rt: &impl Print, desk: &mut Desk) -> io::Result<()> {
    let rf = Tie::of(Relation::Rf, 2, 1);
    desk.untie(rt, rf)?;
    desk.untie(rt, rf)?;
    desk.tie(rt, rf)
}

// A case whose read has no write is handed back with the fault; mended, it is sealed.
fn seal_without_rf(rt: &impl Print, mut desk: Desk) -> io::Result<()> {
    let rf = Tie::of(Relation::Rf, 2, 1);
    desk.untie(rt, rf)?;
    match desk.seal() {
        Ok(_) => rt.println("seal: sealed"),
        Err((mut open, fault)) => {
            println!(rt; "seal: refused, {fault}")?;
            open.tie(rt, rf)?;
            seal_and_reopen(rt, open)
        }
    }
}

fn seal_and_reopen(rt: &impl Print, desk: Desk) -> io::Result<()> {
    match desk.seal() {
        Ok(sealed) => {
            rt.println("seal: sealed")?;
            let count = sealed.reopen().count();
            println!(rt; "reopen: open again, {count} events")
        }
        Err((_, fault)) => println!(rt; "seal: refused, {fault}"),
    }
}
