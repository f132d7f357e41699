// The operations of the algebra, each a whole relation from whole relations.
ghost use Rattle.std.specs.Prelude.{◌≡◌, ℕ, ◌<◌, min, max, ◌&&◌};
ghost use Rattle.rows.specs.Row.{bit};
ghost use Rattle.relations.specs.Algebra.{empty, identity, union, inter, diff, product, from, to, opt, within};
ghost use Rattle.relations.specs.Table.{HasRows};
ghost use Rattle.relations.specs.View.{rel, size};

use crate::kinds::Relation;
use rows::{below, has, with};

impl Relation {
    // The relation on n events, or on 64 where n is more, whose rows the closure answers. Targets past the events are left out.
    pub fn by_rows<F: Fn(usize) -> u64>(n: usize, row: F) -> Relation
        requires { (a : ℕ) → a < min n 64 → F.pre row a }
        ensures rows { HasRows (min n 64) (F.post row) (rel result) }
        ensures events { size result ≡ min n 64 }
    {
        let events = n.min(64);
        let inside = below(events);
        let mut rows = [0; 64];
        for (a, targets) in rows[..events].iter_mut().enumerate() {
            *targets = row(a) & inside;
        }
        Relation { rows, events }
    }

    // No pair, on n events, or on 64 where n is more.
    pub fn empty(n: usize) -> Relation
        ensures pairs { rel result ≡ empty }
        ensures events { size result ≡ min n 64 }
    {
        Relation {
            rows: [0; 64],
            events: n.min(64),
        }
    }

    // Each of the first n events with itself.
    pub fn identity(n: usize) -> Relation
        ensures pairs { rel result ≡ identity (min n 64) }
        ensures events { size result ≡ min n 64 }
    {
        Relation::by_rows(n, |a| with(0, a))
    }

    // The pairs of either.
    pub fn union(&self, other: &Relation) -> Relation
        ensures pairs { rel result ≡ union (rel self.now) (rel other.now) }
        ensures events { size result ≡ max (size self.now) (size other.now) }
    {
        let events = self.events.max(other.events);
        Relation::by_rows(events, |a| self.rows[a] | other.rows[a])
    }

    // The pairs of both.
    pub fn inter(&self, other: &Relation) -> Relation
        ensures pairs { rel result ≡ inter (rel self.now) (rel other.now) }
        ensures events { size result ≡ max (size self.now) (size other.now) }
    {
        let events = self.events.max(other.events);
        Relation::by_rows(events, |a| self.rows[a] & other.rows[a])
    }

    // The pairs of the first that the other lacks.
    pub fn diff(&self, other: &Relation) -> Relation
        ensures pairs { rel result ≡ diff (rel self.now) (rel other.now) }
        ensures events { size result ≡ max (size self.now) (size other.now) }
    {
        let events = self.events.max(other.events);
        Relation::by_rows(events, |a| self.rows[a] & !other.rows[a])
    }

    // Every pair from a source to a target, of the first n events.
    pub fn product(n: usize, sources: u64, targets: u64) -> Relation
        ensures pairs { rel result ≡ product (within n (bit sources)) (within n (bit targets)) }
        ensures events { size result ≡ min n 64 }
    {
        Relation::by_rows(n, |a| row_if(has(sources, a), targets))
    }

    // The pairs that begin in a set.
    pub fn from(&self, sources: u64) -> Relation
        ensures pairs { rel result ≡ from (bit sources) (rel self.now) }
        ensures events { size result ≡ size self.now }
    {
        Relation::by_rows(self.events, |a| row_if(has(sources, a), self.rows[a]))
    }

    // The pairs that end in a set.
    pub fn to(&self, targets: u64) -> Relation
        ensures pairs { rel result ≡ to (rel self.now) (bit targets) }
        ensures events { size result ≡ size self.now }
    {
        Relation::by_rows(self.events, |a| self.rows[a] & targets)
    }

    // The pairs, and each event with itself.
    #[tactic(auto, unfolding(crate::specs::Algebra::opt))]
    pub fn opt(&self) -> Relation
        ensures pairs { rel result ≡ opt (size self.now) (rel self.now) }
        ensures events { size result ≡ size self.now }
    {
        self.union(&Relation::identity(self.events))
    }
}

// The row, or an empty one.
fn row_if(keep: bool, row: u64) -> u64
    ensures { (b : ℕ) → bit result b ≡ (keep && bit row b) }
{
    if keep { row } else { 0 }
}
