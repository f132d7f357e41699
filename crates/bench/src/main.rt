// Times the operations whose cost grows fastest, on dense and sparse relations of 64 and of 10 events.
//
//     bench            a checksum of each case's result, the same each time
//     bench time       the time of each case
//     bench only N     runs the case N alone, many times, for a count of its instructions; with N past the last, what the program itself costs
#![tactic(auto)]

mod cases;

use cases::{Case, Operation, cases, input, run};
use relations::Relation;
use std::env;
use std::time::Instant;

// How often a case is run, so that a clock can tell.
const ROUNDS: u32 = 1000;

fn main(rt: HostRuntime) -> anyhow::Result<()> {
    let mut words = env::args(&rt)?;
    let Some(word) = words.nth(1) else {
        return print_checksums(&rt);
    };
    if word.as_str() == "time" {
        return print_times(&rt);
    }
    match words.next() {
        Some(number) => run_only(&rt, number.as_str().parse::<usize>()?),
        None => Ok(()),
    }
}

fn print_checksums(rt: &HostRuntime) -> anyhow::Result<()> {
    for (number, c) in cases().iter().enumerate() {
        print_line(rt, number, c, run(c.operation, &input(c)) as u128)?;
    }
    Ok(())
}

fn print_times(rt: &HostRuntime) -> anyhow::Result<()> {
    println!(rt; "nanoseconds")?;
    let mut sum: u64 = 0;
    for (number, c) in cases().iter().enumerate() {
        let x = input(c);
        let start = Instant::now(rt)?;
        sum = sum.wrapping_add(repeated(c.operation, &x));
        let nanos = start.elapsed(rt)?.as_nanos() / ROUNDS as u128;
        print_line(rt, number, c, nanos)?;
    }
    // printed so that no run can be left out
    println!(rt; "checksum {sum}")?;
    Ok(())
}

fn run_only(rt: &HostRuntime, number: usize) -> anyhow::Result<()> {
    if let Some(c) = cases().get(number) {
        println!(rt; "checksum {}", repeated(c.operation, &input(c)))?;
    }
    Ok(())
}

fn print_line(rt: &HostRuntime, number: usize, c: &Case, value: u128) -> anyhow::Result<()> {
    println!(rt; "{number} {c}: {value}")?;
    Ok(())
}

fn repeated(operation: Operation, x: &Relation) -> u64 {
    let mut sum: u64 = 0;
    for _ in 0..ROUNDS {
        sum = sum.wrapping_add(run(operation, x));
    }
    sum
}
