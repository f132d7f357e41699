// Judges a candidate execution: reads its case text from standard input and prints the ruling.
#![tactic(auto)]

use casewriter::front;
use help::HELP;
use intake::{ROOM, fill};
use rulings::SheetRow;
use std::{env, io};
use telling::{decline, judge_text, tell};

mod help;
#[cfg(test)]
mod tests;

fn main(rt: HostRuntime) -> anyhow::Result<()> {
    if asks_help(&rt)? {
        rt.println(HELP)?;
    } else {
        judge(&rt)?;
    }
    Ok(())
}

fn judge(rt: &HostRuntime) -> io::Result<()> {
    let mut text = vec![in rt.alloc(); 0u8; ROOM]?;
    let count = fill(&mut rt.stdin(), &mut text)?;
    let mut sheet = [SheetRow::BLANK; 64];
    match judge_text(front(&text, count), &mut sheet) {
        Ok(judgment) => tell(rt, &judgment, &sheet),
        Err(refusal) => decline(rt, refusal),
    }
}

// Whether the first argument is `--help`.
fn asks_help(rt: &HostRuntime) -> io::Result<bool> {
    Ok(
        env::args(rt)?
            .nth(1)
            .is_some_and(|word| word.as_str() == "--help"),
    )
}
