// The tests of events and ties.
ghost use Rattle.std.specs.Prelude.{◌≡◌, ℕ, ◌<◌, ◌||◌, bit_or};
ghost use Rattle.std.specs.Result.{result_err};
ghost use Rattle.rows.specs.Row.{bit, any};
ghost use Rattle.executions.specs.Execution.{count};
ghost use Rattle.executions.specs.Ties.{relations};
ghost use Rattle.sources.specs.Snapshot.{execution};
ghost use Rattle.wellformed.specs.Faults.{first, first_in, range_fault, pair_fault, row_fault as row_first, relation_fault as relation_first, read_fault as read_first};
ghost use Rattle.wellformed.specs.Walk.{Before, source_if, over_by};
ghost use Rattle.executions.specs.declared.ties.Relation.TheVariants.{Rf};

use crate::declining::{decline_if, test_each};
use executions::{Cause, Fault, Relation};
use rows::members;
use sources::Snapshot;

// Declines with the first event that is out of range.
pub(crate) fn test_events(case: &Snapshot) -> Result<(), Fault>
    ensures { result_err result ≡ first (count (execution case.now)) (range_fault (execution case.now)) }
{
    test_each(case.count(), |i| {
        decline_if(!case.event(i).in_range(), Cause::OutOfRange, i)
    })
}

// Declines with the first tie at fault, by relation, first event, second event.
pub(crate) fn test_ties(case: &Snapshot) -> Result<(), Fault>
    ensures { result_err result ≡ first_in (relation_first (execution case.now)) relations }
{
    for relation in Relation::ALL {
        test_relation(case, relation)?;
    }
    Ok(())
}

// Declines with the first tie of a relation at fault. The events at the ends of the ties so far are carried along for the two limits.
// A case is asked for its events and rows by number, so this loop and those like it go over numbers.
fn test_relation(case: &Snapshot, relation: Relation) -> Result<(), Fault>
    ensures { result_err result ≡ relation_first (execution case.now) relation }
{
    let mut ends = Ends {
        targets: 0,
        sources: 0,
    };
    for a in 0..case.count() {
        test_row(case, relation, a, ends)?;
        ends = ends.with_row(a, case.row(relation, a));
    }
    Ok(())
}

// The ends of the ties from the events so far: the events that they lead to, and those that they come from.
#[derive(Clone, Copy)]
struct Ends {
    targets: u64,
    sources: u64,
}

impl Ends {
    // With the ties of event a as well.
    fn with_row(self, a: usize, row: u64) -> Ends
        ensures targets { result.targets ≡ bit_or self.targets row }
        ensures sources { bit result.sources ≡ source_if (any 64 (bit row)) a (bit self.sources) }
    {
        Ends {
            targets: self.targets | row,
            sources: source_if(has_below(row, 64), self.sources, a),
        }
    }

    // Whether the tie from a to b is one too many, given these ends of the ties before, and the row of a.
    fn is_over(self, relation: Relation, a: usize, b: usize, row: u64) -> bool
        ensures { result ≡ over_by relation a b (bit row) (bit self.targets) (bit self.sources) }
    {
        match relation {
            Relation::Rf => rows::has(self.targets, b),
            Relation::Rmw => self.has(a) || self.has(b) || has_below(row, b),
            _ => false,
        }
    }

    // Whether the event is an end of one of the ties.
    fn has(self, event: usize) -> bool
        ensures { result ≡ (bit self.targets event || bit self.sources event) }
    {
        rows::has(self.targets, event) || rows::has(self.sources, event)
    }
}

fn source_if(tied: bool, sources: u64, a: usize) -> u64
    ensures { bit result ≡ source_if tied a (bit sources) }
{
    if tied {
        rows::with(sources, a)
    } else {
        sources
    }
}

// Declines with the first tie from an event at fault.
fn test_row(case: &Snapshot, relation: Relation, a: usize, ends: Ends) -> Result<(), Fault>
    requires there { a < count (execution case.now) }
    requires before { Before (execution case.now) relation a ends.targets ends.sources }
    ensures { result_err result ≡ row_first (execution case.now) relation a }
{
    let row = case.row(relation, a);
    for b in members(row) {
        let over = ends.is_over(relation, a, b, row);
        test_pair(case, relation, a, b, over)?;
    }
    Ok(())
}

// Declines where something is wrong with a tie that is there.
fn test_pair(
    case: &Snapshot,
    relation: Relation,
    a: usize,
    b: usize,
    over: bool,
) -> Result<(), Fault>
    requires first { a < 64 }
    requires second { b < 64 }
    ensures { result_err result ≡ pair_fault (execution case.now) relation a b over }
{
    decline_if(b >= case.count(), Cause::NoSuchEvent, b)?;
    let fits = relation.fits(a, case.event(a), b, case.event(b));
    decline_if(!fits, Cause::DoesNotFit, a)?;
    decline_if(over, Cause::OverLimit, b)
}

// Whether a number below b is in the row.
fn has_below(row: u64, b: usize) -> bool
    ensures { result ≡ any b (bit row) }
{
    rows::lowest(row).is_some_and(|c| c < b)
}

// Declines with the first read that no write gives its value.
pub(crate) fn test_reads(case: &Snapshot) -> Result<(), Fault>
    ensures { result_err result ≡ first (count (execution case.now)) (read_first (execution case.now)) }
{
    let given = all_targets(case, Relation::Rf);
    test_each(case.count(), |b| {
        let amiss = case.event(b).is_read() && !rows::has(given, b);
        decline_if(amiss, Cause::ReadWithoutRf, b)
    })
}

// The events that a relation leads to.
fn all_targets(case: &Snapshot, relation: Relation) -> u64
    ensures { (e : ℕ) → bit result e ≡ any (count (execution case.now)) (λ a. (execution case.now).ties relation a e) }
{
    // As a fold this would need its step as a function with a contract, which is longer than the loop.
    let mut targets = 0;
    for a in 0..case.count() {
        targets |= case.row(relation, a);
    }
    targets
}
