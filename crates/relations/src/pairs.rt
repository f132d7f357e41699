// Reading a relation and building one, pair by pair or row by row.
ghost use Rattle.std.specs.Prelude.{◌≡◌};
ghost use Rattle.rows.specs.Row.{bit};
ghost use Rattle.relations.specs.Algebra.{union, pair, replaced};
ghost use Rattle.relations.specs.View.{rel, size};

use crate::kinds::Relation;
use rows::{below, with};

impl Relation {
    // How many events there are: all pairs are of events below this number.
    pub fn events(&self) -> usize
        ensures { result ≡ size self.now }
    {
        self.events
    }

    // Whether a is related to b.
    pub fn has(&self, a: usize, b: usize) -> bool
        ensures { result ≡ rel self.now a b }
    {
        rows::has(self.row(a), b)
    }

    // The targets of a.
    #[tactic(auto, using(crate::proofs::Tables::row_at), unfolding(crate::specs::View::rel))]
    pub fn row(&self, a: usize) -> u64
        ensures { bit result ≡ rel self.now a }
    {
        self.rows.get(a).copied().unwrap_or(0)
    }

    // Adds the pair of a and b. A pair with an end past the events is left out.
    #[tactic(auto, using(crate::proofs::Writes::set_adds, crate::proofs::Writes::pair_past), unfolding(crate::specs::View::rel))]
    pub fn add(&mut self, a: usize, b: usize)
        ensures pairs { rel self.new ≡ union (rel self.old) (pair (size self.old) a b) }
        ensures events { size self.new ≡ size self.old }
    {
        if a < self.events && b < self.events {
            self.rows[a] = with(self.rows[a], b);
        }
    }

    // Replaces the targets of a. Targets past the events are left out, and an a past them changes nothing.
    #[tactic(auto, using(crate::proofs::Writes::set_replaces, crate::proofs::Writes::replaced_past), unfolding(crate::specs::View::rel))]
    pub fn replace(&mut self, a: usize, targets: u64)
        ensures pairs { rel self.new ≡ replaced (size self.old) a (bit targets) (rel self.old) }
        ensures events { size self.new ≡ size self.old }
    {
        if a < self.events {
            self.rows[a] = targets & below(self.events);
        }
    }
}
