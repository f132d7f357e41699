// Rules of a memory model: each a line of the algebra, in the code and in its contract, and none with a proof of its own.
ghost use Rattle.std.specs.Prelude.{◌≡◌, not, is_some, IfSome, Decides};
ghost use Rattle.relations.specs.Algebra.{union, inverse, seq, plus, opt};
ghost use Rattle.relations.specs.Chains.{Acyclic};
ghost use Rattle.relations.specs.View.{rel, size};
ghost use Rattle.searches.specs.Cycles.{IsShortest};
ghost use Rattle.searches.specs.View.{listed};

use relations::Relation;
use searches::{Cycle, shortest_cycle};

// From-reads: rf^-1; co.
pub fn from_reads(rf: &Relation, co: &Relation) -> Relation
    ensures { rel result ≡ seq (inverse (rel rf.now)) (rel co.now) }
{
    rf.inverse().seq(co)
}

// Coherence per location: po-loc ∪ rf ∪ co ∪ fr has no cycle.
pub fn coherent(po_loc: &Relation, rf: &Relation, co: &Relation) -> bool
    ensures { Decides result (Acyclic (union (rel po_loc.now) (union (rel rf.now) (union (rel co.now) (seq (inverse (rel rf.now)) (rel co.now)))))) }
{
    po_loc
        .union(&rf.union(&co.union(&from_reads(rf, co))))
        .acyclic()
}

// Happens-before: (po; rf?)+.
pub fn happens_before(po: &Relation, rf: &Relation) -> Relation
    ensures { rel result ≡ plus (seq (rel po.now) (opt (size rf.now) (rel rf.now))) }
{
    po.seq(&rf.opt()).plus()
}

// A shortest cycle of po ∪ fr, where a thread reads too old a value.
pub fn stale_read(po: &Relation, rf: &Relation, co: &Relation) -> Option<Cycle>
    ensures none { Decides (not (is_some result)) (Acyclic (union (rel po.now) (seq (inverse (rel rf.now)) (rel co.now)))) }
    ensures found { IfSome result (λ c. IsShortest (union (rel po.now) (seq (inverse (rel rf.now)) (rel co.now))) (listed c)) }
{
    shortest_cycle(&po.union(&from_reads(rf, co)))
}
