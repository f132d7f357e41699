// Steps of a relation: one after another, backwards, and chains of any number of them.
ghost use Rattle.std.specs.Prelude.{◌≡◌, ◌<◌, ◌≤◌, length, max, Decides};
ghost use Rattle.rows.specs.Row.{bit};
ghost use Rattle.relations.specs.Algebra.{union, inverse, seq, plus, star, product, only, image};
ghost use Rattle.relations.specs.Chains.{DecidesChains, Acyclic};
ghost use Rattle.relations.specs.Table.{table, On, via};
ghost use Rattle.relations.specs.View.{rel, size};

use crate::kinds::Relation;
use rows::{has, members, with};

impl Relation {
    // The targets of all events of a set.
    #[tactic(auto, using(crate::proofs::Images::gather_none, crate::proofs::Images::gather_more, crate::proofs::Images::gather_all), unfolding(crate::specs::View::rel))]
    pub fn image(&self, sources: u64) -> u64
        ensures { bit result ≡ image (rel self.now) (bit sources) }
    {
        let mut targets = 0;
        for a in members(sources) {
            targets |= self.rows[a];
        }
        targets
    }

    // A step of the first, then a step of the other.
    pub fn seq(&self, other: &Relation) -> Relation
        ensures pairs { rel result ≡ seq (rel self.now) (rel other.now) }
        ensures events { size result ≡ max (size self.now) (size other.now) }
    {
        let events = self.events.max(other.events);
        Relation::by_rows(events, |a| other.image(self.rows[a]))
    }

    // The pairs turned round.
    pub fn inverse(&self) -> Relation
        ensures pairs { rel result ≡ inverse (rel self.now) }
        ensures events { size result ≡ size self.now }
    {
        let mut rows = [0; 64];
        for (a, targets) in self.rows[..self.events].iter().enumerate() {
            scatter(&mut rows, a, *targets);
        }
        Relation {
            rows,
            events: self.events,
        }
    }

    // The closure: one step or more.
    pub fn plus(&self) -> Relation
        ensures pairs { rel result ≡ plus (rel self.now) }
        ensures chains { DecidesChains (rel result) (rel self.now) }
        ensures events { size result ≡ size self.now }
    {
        let mut rows = self.rows;
        let joined = &mut rows[..self.events];
        // k is an event, the one at which steps meet, and no index
        for k in 0..self.events {
            join_at(joined, k);
        }
        Relation {
            rows,
            events: self.events,
        }
    }

    // No step, one or more.
    #[tactic(auto, unfolding(crate::specs::Algebra::star))]
    pub fn star(&self) -> Relation
        ensures pairs { rel result ≡ star (size self.now) (rel self.now) }
        ensures events { size result ≡ size self.now }
    {
        self.plus().opt()
    }

    // Whether no chain of steps comes back to where it began.
    pub fn acyclic(&self) -> bool
        ensures { Decides result (Acyclic (rel self.now)) }
    {
        let closure = self.plus();
        !(0..self.events).any(|a| closure.has(a, a))
    }
}

// Puts a into each of the rows that the set names.
#[tactic(auto, using(crate::proofs::Turns::scatter_more, crate::proofs::Turns::scatter_all))]
fn scatter(rows: &mut [u64; 64], a: usize, set: u64)
    requires { a < 64 }
    ensures { table rows.new ≡ union (table rows.old) (product (bit set) (only a)) }
{
    for b in members(set) {
        rows[b] = with(rows[b], a);
    }
}

// Joins the steps that meet at k. Only rows that have k change, and row k is the same before and after.
#[tactic(auto, using(crate::proofs::Joins::joined_none, crate::proofs::Joins::joined_all, crate::proofs::Joins::via_none))]
fn join_at(rows: &mut [u64], k: usize)
    requires event { k < length rows.old }
    requires few { length rows.old ≤ 64 }
    ensures { table rows.new ≡ via k (table rows.old) }
{
    let onward = rows[k];
    if onward != 0 {
        for row in rows.iter_mut() {
            if has(*row, k) {
                *row |= onward;
            }
        }
    }
}
