// Rcu decided and the first table found, on one sheet of balances: links first, then each period, each section and each row of the table
// as a relay.
ghost use Rattle.std.specs.Prelude.{◌≡◌, ℕ, suc, ◌<◌, ◌≤◌, false, not, ◌&&◌, is_some, IfSome, Decides};
ghost use Rattle.rows.specs.Row.{bit};
ghost use Rattle.relations.specs.Algebra.{any, within};
ghost use Rattle.relations.specs.Chains.{Acyclic};
ghost use Rattle.relations.specs.Table.{table};
ghost use Rattle.grace.specs.Scene.{Scene, pb};
ghost use Rattle.grace.specs.Law.{Rcu, from_on};
ghost use Rattle.grace.specs.First.{First};
ghost use Rattle.grace.specs.Sheet.{Fits};
ghost use Rattle.grace.specs.Deciding.{section_sheet, row_sheet, rounds, first_table};
ghost use Rattle.precedence.specs.Relays.{Stairs, turning, IsRelay, periods, sections};
ghost use Rattle.precedence.specs.Rows.{sheet};
ghost use Rattle.settings.specs.View.{scene};

use crate::balances::{Relay, Sheet, add_node, add_relay, closing, links, reaches, those};
use crate::kinds::FirstTable;
use settings::{Setting, meets};

// A kind of relay, one for each event: `stairs` has the sheets that they make one after another.
trait Kind {
    ghost stairs: { Scene → Stairs };

    fn relay(x: &Setting, k: usize) -> Relay
        ensures { IsRelay (stairs (scene x.now)) k result };
}

struct Periods;

struct Sections;

// No way leads to s where it is no period.
impl Kind for Periods {
    ghost stairs = { periods };

    fn relay(x: &Setting, s: usize) -> Relay {
        Relay {
            into: x.before_period(s),
            out: x.from_on(s),
            periods: 1,
            sections: 0,
        }
    }
}

// No way leads to l where it is no lock.
impl Kind for Sections {
    ghost stairs = { sections };

    fn relay(x: &Setting, l: usize) -> Relay {
        Relay {
            into: x.before_unlock(l),
            out: x.from_on(l),
            periods: 0,
            sections: 1,
        }
    }
}

// Adds the relays of a kind one after another; none where one makes a round with those before it. k is the event of a relay, and no index.
fn add_all<K: Kind>(x: &Setting, m: &mut Sheet) -> Option<()>
    requires start { sheet m.old ≡ (K.stairs (scene x.now)).stage 0 }
    requires one_period { (K.stairs (scene x.now)).up ≤ 1 }
    requires fits { (k : ℕ) → ((i : ℕ) → i < k → turning (K.stairs (scene x.now)) i ≡ false) → Fits ((K.stairs (scene x.now)).stage k) }
    ensures calm { is_some result ≡ not (any 64 (turning (K.stairs (scene x.now)))) }
    ensures more { IfSome result (λ _. sheet m.new ≡ (K.stairs (scene x.now)).stage 64) }
{
    for k in 0..64 {
        add_node(m, &K::relay(x, k))?;
    }
    Some(())
}

// Whether s is a period after which no event closes a round with a section.
fn comes_after(x: &Setting, closing: u64, s: usize) -> bool
    ensures { result ≡ ((scene x.now).period s && not (any 64 (λ d. from_on (scene x.now) s d && bit closing d))) }
{
    x.is_period(s) && !meets(x.from_on(s), closing)
}

// All periods of which that holds: the section can go before each of them.
fn all_after(x: &Setting, closing: u64) -> u64
    ensures { bit result ≡ within 64 (λ s. (scene x.now).period s && not (any 64 (λ d. from_on (scene x.now) s d && bit closing d))) }
{
    those(|s| comes_after(x, closing, s))
}

// The row of lock l, and the sheet with that row besides.
fn add_row(x: &Setting, m: &mut Sheet, l: usize) -> u64
    requires rows_before { sheet m.old ≡ row_sheet (scene x.now) l }
    requires no_round { rounds (scene x.now) ≡ false }
    ensures row { bit result ≡ first_table (scene x.now) l }
    ensures more { sheet m.new ≡ row_sheet (scene x.now) (suc l) }
{
    if !x.is_lock(l) {
        return 0;
    }
    let into = x.before_unlock(l);
    let reach = reaches(m, into);
    let row = all_after(x, closing(&reach, 0, 0));
    add_relay(
        m,
        &reach,
        &Relay {
            into,
            out: x.from_any(row),
            periods: 0,
            sections: 0,
        },
    );
    row
}

// The rows of all locks.
fn all_rows(x: &Setting, m: &mut Sheet) -> [u64; 64]
    requires after_sections { sheet m.old ≡ section_sheet (scene x.now) 64 }
    requires no_round { rounds (scene x.now) ≡ false }
    ensures { table result ≡ first_table (scene x.now) }
{
    let mut rows = [0; 64];
    for (l, row) in rows.iter_mut().enumerate() {
        *row = add_row(x, m, l);
    }
    rows
}

// The first of the tables that leave enlarged pb without a cycle, where Rcu is kept and pb itself has none; no table where Rcu is broken.
pub fn first_table(x: &Setting) -> Option<FirstTable>
    ensures rule { Decides (is_some result) (Rcu (scene x.now) (scene x.now).strong) }
    ensures first { IfSome result (λ t. (Acyclic (pb (scene x.now) (scene x.now).strong) → First (scene x.now) (table t.rows))) }
    ensures words { IfSome result (λ t. table t.rows ≡ first_table (scene x.now)) }
{
    let mut m = links(&x.link());
    add_all::<Periods>(x, &mut m)?;
    add_all::<Sections>(x, &mut m)?;
    Some(FirstTable {
        rows: all_rows(x, &mut m),
    })
}
