// Rules on the published executions and asks for what stands at the limits of a case.
// For each it prints what is expected and what came, and at the end how many agree.
#![tactic(auto)]

mod judged;
mod kinds;
mod limits;
mod list;
mod texts;
mod words;

use judged::{agrees, rule_on_text};
use kinds::{Limit, Published};
use limits::{enter_after, limits};
use list::{FURTHER, TABLE};
use std::{fmt, io};
use words::{Entry, Ruled};

// How many lines agree, and how many there are.
#[derive(Clone, Copy, Default)]
struct Tally {
    agree: u32,
    lines: u32,
}

impl Tally {
    fn count(&mut self, agrees: bool) {
        self.agree = self.agree.saturating_add(u32::from(agrees));
        self.lines = self.lines.saturating_add(1);
    }
}

impl fmt::Display for Tally {
    fn fmt<W: fmt::Write>(&self, f: &mut fmt::Formatter<W>) -> fmt::Result {
        write!(f, "{} of {} agree", self.agree, self.lines)
    }
}

fn main(rt: HostRuntime) -> io::Result<()> {
    let mut tally = Tally::default();
    println!(rt; "The published table")?;
    compare_all(&rt, &TABLE, &mut tally)?;
    println!(rt; "Further executions")?;
    compare_all(&rt, &FURTHER, &mut tally)?;
    println!(rt; "Limits")?;
    for limit in limits() {
        compare_limit(&rt, limit, &mut tally)?;
    }
    rt.println(tally)
}

fn compare_all(rt: &impl Print, list: &[Published], tally: &mut Tally) -> io::Result<()> {
    for (name, outcome, text) in list {
        let ruling = rule_on_text(text);
        tally.count(agrees(*outcome, ruling));
        println!(rt; "{name:<18} {outcome:<7} {}", Ruled(ruling))?;
    }
    Ok(())
}

fn compare_limit(rt: &impl Print, limit: Limit, tally: &mut Tally) -> io::Result<()> {
    let answer = enter_after(limit.before, limit.event);
    tally.count(answer == limit.answer);
    let (name, expected, got) = (limit.name, Entry(limit.answer), Entry(answer));
    println!(rt; "{name:<18} expected {expected}, got {got}")
}
