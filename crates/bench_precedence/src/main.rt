// Decides Rcu for 20 sections and 22 grace periods in 64 events, and finds a round of 32 steps where it is broken.
// Without an argument it says what came out; with the argument `time`, how long it took.
#![tactic(auto)]

mod scenes;

use precedence::first_table;
use rounds::{Mark, Round, shortest_round};
use rows::count;
use scenes::{crowd, ring};
use settings::Setting;
use std::time::Instant;
use std::{env, io};

const RUNS: u32 = 200;

// How many entries of the first table have the section first; none where Rcu is broken.
fn section_first(x: &Setting) -> usize {
    // The bound of a `sum` is not proved here, so the rows are added up in a loop.
    let mut total = 0;
    if let Some(table) = first_table(x) {
        for row in &table.rows {
            total += count(*row);
        }
    }
    total
}

// How many steps of a round are period steps.
fn period_steps(round: &Round) -> usize {
    round.marks[..round.steps]
        .iter()
        .filter(|mark| matches!(mark, Mark::Period))
        .count()
}

// How many steps a shortest round has; none where there is no round.
fn round_steps(x: &Setting) -> usize {
    shortest_round(x).map_or(0, |round| round.steps)
}

fn report(rt: &HostRuntime, x: &Setting) -> io::Result<()> {
    match shortest_round(x) {
        None => {
            let n = section_first(x);
            println!(rt; "kept: {n} pairs have the section first")
        }
        Some(round) => {
            let (steps, periods, first) = (round.steps, period_steps(&round), round.events[0]);
            println!(rt;
                "broken: a round of {steps} steps from event {first}, {periods} of them period steps"
            )
        }
    }
}

fn time<F: Fn() -> usize>(rt: &HostRuntime, what: &str, work: F) -> io::Result<()>
    requires { F.IsAlwaysCallable work }
{
    let start = Instant::now(rt)?;
    let mut sum: usize = 0;
    for _ in 0..RUNS {
        sum ^= work();
    }
    let micros = start.elapsed(rt)?.as_micros() / RUNS as u128;
    println!(rt; "{what} in {micros} µs ({sum})")
}

fn main(rt: HostRuntime) -> io::Result<()> {
    let Some(kept) = crowd() else {
        return println!(rt; "the crowd does not fit together");
    };
    let Some(broken) = ring() else {
        return println!(rt; "the ring does not fit together");
    };
    if env::args(&rt)?.count() > 1 {
        time(&rt, "crowd: first table", || section_first(&kept))?;
        time(&rt, "ring: first table", || section_first(&broken))?;
        return time(&rt, "ring: shortest round", || round_steps(&broken));
    }
    report(&rt, &kept)?;
    report(&rt, &broken)
}
