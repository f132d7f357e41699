// Times the texts of cases of 64 events with more and more ties, the last of them the largest text that a sealed case can have.
//
//     bench_text           how many ties and bytes each has, and whether it comes back the same
//     bench_text time      how long each step of each takes
//     bench_text only N S  runs step S of case N ten times, for a count of its instructions; with S past the last, what the rest costs
#![tactic(auto)]

mod cases;
mod steps;

use anyhow::Context;
use cases::{Built, ROOM};
use casewriter::front;
use executions::Relation;
use std::env;
use std::time::Instant;
use steps::{ROUNDS, STEPS, repeated, retold};

fn main(rt: HostRuntime) -> anyhow::Result<()> {
    let mut words = env::args(&rt)?;
    let Some(word) = words.nth(1) else {
        return print_all(&rt, false);
    };
    if word.as_str() == "time" {
        return print_all(&rt, true);
    }
    let (Some(number), Some(step)) = (words.next(), words.next()) else {
        return Ok(());
    };
    run_only(
        &rt,
        number.as_str().parse::<u32>()?,
        step.as_str().parse::<usize>()?,
    )
}

fn print_all(rt: &HostRuntime, timed: bool) -> anyhow::Result<()> {
    // Each relation but the first is once the last that has its ties: no case is without rf and co.
    for last in &Relation::ALL[1..] {
        if timed {
            print_times(rt, *last)?;
        } else {
            print_account(rt, *last)?;
        }
    }
    Ok(())
}

// Builds a case, writes it, reads that text, and seals and writes it again.
fn print_account(rt: &HostRuntime, last: Relation) -> anyhow::Result<()> {
    let built = Built::up_to(last).context("not sealed")?;
    let mut buffer = [0u8; ROOM];
    let text = built.text(&mut buffer);
    let mut back = [0u8; ROOM];
    let again = retold(text, &mut back);
    let which = if text == front(&back, again) {
        "the same when read and written again"
    } else {
        "other when read and written again"
    };
    let (count, bytes) = (built.tied(), text.len());
    println!(rt; "up to {last}: {count} ties, {bytes} bytes, {which}")?;
    Ok(())
}

fn print_times(rt: &HostRuntime, last: Relation) -> anyhow::Result<()> {
    let built = Built::up_to(last).context("not sealed")?;
    let mut buffer = [0u8; ROOM];
    let text = built.text(&mut buffer);
    println!(rt; "up to {last}")?;
    let mut back = [0u8; ROOM];
    for step in STEPS {
        let start = Instant::now(rt)?;
        let sum = repeated(step, &built, text, &mut back);
        let micros = start.elapsed(rt)?.as_micros() / ROUNDS as u128;
        // The sum is printed so that no run can be left out.
        println!(rt; "  {step}: {micros} µs ({sum})")?;
    }
    Ok(())
}

fn run_only(rt: &HostRuntime, number: u32, step: usize) -> anyhow::Result<()> {
    let Ok(last) = Relation::try_from(number) else {
        return Ok(());
    };
    let built = Built::up_to(last).context("not sealed")?;
    let mut buffer = [0u8; ROOM];
    let text = built.text(&mut buffer);
    let mut back = [0u8; ROOM];
    if let Some(step) = STEPS.get(step) {
        println!(rt; "{}", repeated(*step, &built, text, &mut back))?;
    }
    Ok(())
}
