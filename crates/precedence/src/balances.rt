// A sheet of balances: for each two events 0 where nothing leads from one to the other, else 128 and the periods, less the sections, of
// the best way.
// Rows are written entry by entry with the index at hand: over `iter_mut().zip(..)` an invariant has no name for what was written.
ghost use Rattle.std.specs.Prelude.{◌≡◌, ℕ, ◌+◌, ◌<◌, ◌≤◌, max, false, not, is_some, IfSome, if◌then◌else◌, nat_le};
ghost use Rattle.rows.specs.Row.{bit};
ghost use Rattle.relations.specs.Algebra.{within};
ghost use Rattle.relations.specs.View.{rel};
ghost use Rattle.grace.specs.Sheet.{Fits, most};
ghost use Rattle.precedence.specs.Relays.{turned, after, joined_over};
ghost use Rattle.precedence.specs.Rows.{cells, sheet, ArePassing};

use relations::Relation;
use rows::{has, members, with};
use settings::meets;

pub type Row = [u8; 64];

pub type Sheet = [Row; 64];

// A relay leads from each event of a set to each of another, and counts as so many periods and sections: numbers and not a kind, since they
// are summed with the balances.
#[derive(Clone, Copy)]
pub(crate) struct Relay {
    pub(crate) into: u64,
    pub(crate) out: u64,
    pub(crate) periods: u8,
    pub(crate) sections: u8,
}

// The largest entry over a set of events.
pub fn best(row: &Row, set: u64) -> u8
    ensures { result ≡ most 64 (bit set) (cells row.now) }
{
    let mut most = 0;
    for c in members(set) {
        most = row[c].max(most);
    }
    most
}

// Raises each entry to that of another row.
fn raise(row: &mut Row, other: &Row)
    ensures { cells row.new ≡ (λ b. max (cells row.old b) (cells other.now b)) }
{
    for (b, entry) in row.iter_mut().enumerate() {
        *entry = (*entry).max(other[b]);
    }
}

// For each event the largest entry to it from a set of events.
fn onward(m: &Sheet, set: u64) -> Row
    ensures { cells result ≡ (λ b. most 64 (bit set) (λ d. sheet m.now d b)) }
{
    let mut all = [0; 64];
    for d in members(set) {
        raise(&mut all, &m[d]);
    }
    all
}

// For each event the largest entry from it into a set of events.
pub(crate) fn reaches(m: &Sheet, into: u64) -> Row
    ensures { cells result ≡ (λ d. most 64 (bit into) (sheet m.now d)) }
{
    let mut all = [0; 64];
    for (d, entry) in all.iter_mut().enumerate() {
        *entry = best(&m[d], into);
    }
    all
}

// The entry for two ways, one after the other, with a relay between them.
fn join(u: u8, v: u8, relay: &Relay) -> u8
    requires { joined_over relay.now u v ≤ 255 }
    ensures { result ≡ joined_over relay.now u v }
{
    if u == 0 || v == 0 {
        return 0;
    }
    (u as u16 + v as u16 + relay.periods as u16).saturating_sub(128 + relay.sections as u16) as u8
}

// Raises each entry of a row to that of the way over the relay: `reach` leads to it, and `on` leads on from it.
fn join_row(row: &mut Row, reach: u8, on: &Row, relay: &Relay)
    requires { (b : ℕ) → joined_over relay.now reach (cells on.now b) ≤ 255 }
    ensures { cells row.new ≡ (λ b. max (cells row.old b) (joined_over relay.now reach (cells on.now b))) }
{
    for (b, entry) in row.iter_mut().enumerate() {
        *entry = (*entry).max(join(reach, on[b], relay));
    }
}

// The sheet with a relay besides. Only rows from which the relay is reached change.
pub(crate) fn add_relay(m: &mut Sheet, reach: &Row, relay: &Relay)
    requires reached { cells reach.now ≡ (λ d. most 64 (bit relay.now.into) (sheet m.old d)) }
    requires fits { Fits (after (sheet m.old) relay.now) }
    ensures { sheet m.new ≡ after (sheet m.old) relay.now }
{
    let on = onward(m, relay.out);
    for (a, row) in m.iter_mut().enumerate() {
        if reach[a] != 0 {
            join_row(row, reach[a], &on, relay);
        }
    }
}

// The events that pass a test: e is the event, and no index.
pub(crate) fn those<F: Fn(usize) -> bool>(test: F) -> u64
    requires { (e : ℕ) → e < 64 → F.pre test e }
    ensures { ArePassing (F.post test) (bit result) }
{
    let mut all = 0;
    for e in 0..64 {
        if test(e) {
            all = with(all, e);
        }
    }
    all
}

// The events from which a way leads to a relay with at least as many periods as sections, those of the relay counted.
pub(crate) fn closing(reach: &Row, periods: u8, sections: u8) -> u64
    ensures { bit result ≡ within 64 (λ d. nat_le (128 + sections) (cells reach.now d + periods)) }
{
    those(|d| 128 + sections as u16 <= reach[d] as u16 + periods as u16)
}

// Adds a period or a section, unless it makes a round with what the sheet has.
pub(crate) fn add_node(m: &mut Sheet, relay: &Relay) -> Option<()>
    requires one_period { relay.now.periods ≤ 1 }
    requires fits { turned (sheet m.old) relay.now ≡ false → Fits (after (sheet m.old) relay.now) }
    ensures calm { is_some result ≡ not (turned (sheet m.old) relay.now) }
    ensures more { IfSome result (λ _. sheet m.new ≡ after (sheet m.old) relay.now) }
{
    if relay.into == 0 {
        return Some(());
    }
    let reach = reaches(m, relay.into);
    if meets(relay.out, closing(&reach, relay.periods, relay.sections)) {
        return None;
    }
    add_relay(m, &reach, relay);
    Some(())
}

// The entries of an event that is linked to each of a set.
fn link_row(targets: u64) -> Row
    ensures { cells result ≡ (λ b. (if bit targets b then 128 else 0)) }
{
    let mut row = [0; 64];
    for (b, entry) in row.iter_mut().enumerate() {
        *entry = if has(targets, b) { 128 } else { 0 };
    }
    row
}

// Links alone.
pub(crate) fn links(link: &Relation) -> Sheet
    ensures { sheet result ≡ (λ a b. (if rel link.now a b then 128 else 0)) }
{
    let mut m = [[0; 64]; 64];
    for (a, row) in m[..link.events()].iter_mut().enumerate() {
        *row = link_row(link.row(a));
    }
    m
}
