// Reads a case text from standard input, seals the case, writes it back, and says what came of it.
#![tactic(auto)]

mod accounts;
mod kinds;

use accounts::rewrite;
use caselines::fields::same;
use casewriter::front;
use intake::{ROOM, fill};
use kinds::Account;
use std::io;

fn main(rt: HostRuntime) -> io::Result<()> {
    let mut text = vec![in rt.alloc(); 0u8; ROOM]?;
    let mut back = vec![in rt.alloc(); 0u8; ROOM]?;
    let count = fill(&mut rt.stdin(), &mut text)?;
    let text = front(&text, count);
    match rewrite(text, &mut back) {
        Ok(account) => tell(&rt, account, same(text, front(&back, account.bytes))),
        Err(refusal) => println!(rt; "{refusal}"),
    }
}

fn tell(rt: &impl Print, account: Account, same: bool) -> io::Result<()> {
    let (events, ties, bytes) = (account.events, account.ties, account.bytes);
    println!(rt; "{events} events, {ties} ties")?;
    rt.println("sealed")?;
    let which = if same {
        "the same as read"
    } else {
        "other than read"
    };
    println!(rt; "written back: {bytes} bytes, {which}")
}
