// The rule At, and a read-modify-write that breaks it.
ghost use Rattle.std.specs.Prelude.{◌≡◌, ℕ, ◌<◌, true, false, not, ◌&&◌, is_some, IfSome, Decides, MatchOption};
ghost use Rattle.relations.specs.Algebra.{seq};
ghost use Rattle.relations.specs.View.{rel};
ghost use Rattle.lkmm.specs.Rules.{At, broken_rmw, IsAtRound};
ghost use Rattle.lkmm.specs.Held.{held};

use crate::kinds::Model;
use rows::lowest;

// A read-modify-write that is not atomic: its read, a write of another thread between, and its write.
#[derive(Clone, Copy)]
pub struct SplitRmw {
    pub read: usize,
    pub between: usize,
    pub write: usize,
}

impl Model {
    // A round of At; none where At is kept.
    pub fn split_rmw(&self) -> Option<SplitRmw>
        ensures none { Decides (not (is_some result)) (At (held self.now)) }
        ensures found { IfSome result (λ t. IsAtRound (held self.now) t.read t.between t.write) }
    {
        (0..self.base.rmw.events()).find_map(|read| self.split_at(read))
    }

    // A round of At from one read.
    fn split_at(&self, read: usize) -> Option<SplitRmw>
        ensures { MatchOption result ((v : ℕ) → broken_rmw (held self.now) read v ≡ false) (λ t. (broken_rmw (held self.now) t.read t.write ≡ true) × IsAtRound (held self.now) t.read t.between t.write) }
    {
        let write = self.split_from(read)?;
        Some(SplitRmw {
            read,
            between: self.between(read, write),
            write,
        })
    }

    // The write of a read-modify-write before which, and after whose read, a write of another thread comes.
    fn split_from(&self, read: usize) -> Option<usize>
        ensures { MatchOption result ((v : ℕ) → (rel self.now.base.rmw read v && seq (rel self.now.fre) (rel self.now.«coe») read v) ≡ false) (λ v. (v < 64) × ((rel self.now.base.rmw read v && seq (rel self.now.fre) (rel self.now.«coe») read v) ≡ true)) }
    {
        lowest(self.base.rmw.row(read) & self.coe.image(self.fre.row(read)))
    }

    // The write between.
    fn between(&self, read: usize, write: usize) -> usize
        requires { seq (rel self.now.fre) (rel self.now.«coe») read write ≡ true }
        ensures read_before { rel self.now.fre read result ≡ true }
        ensures written_after { rel self.now.«coe» result write ≡ true }
    {
        let Some(between) = lowest(self.fre.row(read) & self.coe.inverse().row(write)) else {
            unreachable()
        };
        between
    }
}
