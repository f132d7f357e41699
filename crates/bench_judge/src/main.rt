// Times judge on two cases of 9 events and on one of 64 events with 20 sections and 22 grace periods.
//
//     bench_judge             the rulings
//     bench_judge time        how long one ruling takes
//     bench_judge only N R    judges case N (0, 1 or 2) R times, for a count of its instructions
#![tactic(auto)]

mod cases;

use anyhow::Context;
use cases::{CROWD, RCU_MP, RCU_MP_NEW};
use intake::{Tables, read_sealed};
use rows::count;
use rulings::{SheetRow, Verdict, judge};
use std::env;
use std::time::Instant;

const RUNS: u32 = 2000;

fn main(rt: HostRuntime) -> anyhow::Result<()> {
    let mut words = env::args(&rt)?;
    let Some(word) = words.nth(1) else {
        tell(&rt, "RCU-MP", RCU_MP)?;
        tell(&rt, "RCU-MP, both reads new", RCU_MP_NEW)?;
        return tell(&rt, "64 events", CROWD);
    };
    if word.as_str() == "time" {
        time(&rt, "RCU-MP", RCU_MP)?;
        time(&rt, "RCU-MP, both reads new", RCU_MP_NEW)?;
        return time(&rt, "64 events", CROWD);
    }
    let (Some(number), Some(runs)) = (words.next(), words.next()) else {
        return Ok(());
    };
    let sum = judged(numbered(number.as_str()), runs.as_str().parse::<u32>()?);
    println!(rt; "{sum}")?;
    Ok(())
}

fn numbered(number: &str) -> &'static [u8] {
    match number {
        "0" => RCU_MP,
        "1" => RCU_MP_NEW,
        _ => CROWD,
    }
}

// The ruling on a case, and in how many pairs the section goes first.
fn tell(rt: &HostRuntime, name: &str, text: &[u8]) -> anyhow::Result<()> {
    let mut tables = Tables::BLANK;
    let mut sheet = [SheetRow::BLANK; 64];
    let case = read_sealed(text, &mut tables).ok().context("not sealed")?;
    let source = case
        .source(&tables.events, &tables.ties)
        .ok()
        .context("short tables")?;
    let ruling = judge(&source, &mut sheet).ok().context("not judged")?;
    let pairs = section_first(&sheet);
    match ruling.verdict {
        Verdict::Allowed => println!(rt; "{name}: allowed, {pairs} pairs have the section first")?,
        Verdict::Forbidden(breach) => println!(rt; "{name}: forbidden {breach}")?,
    }
    Ok(())
}

fn section_first(sheet: &[SheetRow; 64]) -> usize {
    // The bound of a `sum` is not proved here, so the rows are added up in a loop.
    let mut pairs = 0;
    for row in sheet {
        pairs += count(row.word);
    }
    pairs
}

fn time(rt: &HostRuntime, name: &str, text: &[u8]) -> anyhow::Result<()> {
    let start = Instant::now(rt)?;
    let sum = judged(text, RUNS);
    let nanos = start.elapsed(rt)?.as_nanos() / RUNS as u128;
    // The sum is printed so that no run can be left out.
    println!(rt; "{name}: {nanos} ns ({sum})")?;
    Ok(())
}

// Judges a case so many times; how many of the rulings forbade it.
fn judged(text: &[u8], runs: u32) -> u32 {
    let mut tables = Tables::BLANK;
    let mut sheet = [SheetRow::BLANK; 64];
    let Ok(case) = read_sealed(text, &mut tables) else {
        return 0;
    };
    let Ok(source) = case.source(&tables.events, &tables.ties) else {
        return 0;
    };
    let mut forbidden = 0u32;
    for _ in 0..runs {
        if let Ok(ruling) = judge(&source, &mut sheet) {
            let is_forbidden = matches!(ruling.verdict, Verdict::Forbidden(_));
            forbidden = forbidden.saturating_add(u32::from(is_forbidden));
        }
    }
    forbidden
}
