// The most period steps that walks of exactly k steps have, for k = 0, 1, 2, ..
#![tactic(auto, using(crate::proofs::Layering::raised_zero, crate::proofs::Layering::raised_more, crate::proofs::Searching::up_is, crate::proofs::Searching::down_is))]

ghost use Rattle.std.specs.Prelude.{◌≡◌, ℕ, ◌+◌, ◌*◌, ◌<◌, ◌≤◌, MatchOption, ◌==◌};
ghost use Rattle.rows.specs.Row.{tick};
ghost use Rattle.relations.specs.View.{rel};
ghost use Rattle.precedence.specs.Rows.{cells, sheet};
ghost use Rattle.settings.specs.View.{scene};
ghost use Rattle.rounds.specs.Layers.{raised, further, tally};
ghost use Rattle.rounds.specs.Marks.{period_step, section_step};

use precedence::{Row, Sheet, best};
use relations::Relation;
use settings::Setting;
use std::array;

// The steps that rounds of Rcu are made of.
#[derive(Clone, Copy)]
pub(crate) struct Steps {
    pub(crate) period: Relation,
    pub(crate) section: Relation,
}

// One more, where there is a walk at all.
pub(crate) fn raise(n: u8) -> u8
    requires { n < 255 }
    ensures { result ≡ raised n }
{
    if n == 0 { 0 } else { n + 1 }
}

// No steps: only the end itself is there.
fn at_end(end: usize) -> Row
    requires { end < 64 }
    ensures { cells result ≡ (λ a. tick (a == end)) }
{
    let mut row = [0; 64];
    row[end] = 1;
    row
}

// For each end no steps.
pub(crate) fn no_steps() -> Sheet
    ensures { (b : ℕ) → b < 64 → sheet result b ≡ (λ a. tick (a == b)) }
{
    array::from_fn(at_end)
}

// The lowest event from which k steps come back with at least as many period as section steps.
pub(crate) fn lowest_closed(m: &Sheet, k: usize) -> Option<usize>
    requires { k ≤ 64 }
    ensures { MatchOption result ((a : ℕ) → a < 64 → 2 * sheet m.now a a < k + 2) (λ a. (a < 64) × (k + 2 ≤ 2 * sheet m.now a a) × ((b : ℕ) → b < a → 2 * sheet m.now b b < k + 2)) }
{
    (0..64).find(|a| k + 2 <= 2 * m[*a][*a] as usize)
}

impl Steps {
    // A period step is gp and then a link, a section step rscs and then a link.
    pub(crate) fn of(x: &Setting) -> Steps
        ensures periods { rel result.period ≡ period_step (scene x.now) }
        ensures sections { rel result.section ≡ section_step (scene x.now) }
    {
        let link = x.link();
        Steps {
            period: x.gp().seq(&link),
            section: x.rscs().seq(&link),
        }
    }

    // One step further from the end: for each event the most period steps, from those of the events that a step leads to.
    fn farther(&self, row: &Row) -> Row
        requires { (b : ℕ) → cells row.now b < 255 }
        ensures { cells result ≡ further (rel self.now.period) (rel self.now.section) (cells row.now) }
    {
        let events = self.period.events().max(self.section.events());
        let mut next = [0; 64];
        for (a, entry) in next[..events].iter_mut().enumerate() {
            *entry = raise(best(row, self.period.row(a))).max(best(row, self.section.row(a)));
        }
        next
    }

    // For each end one step further.
    pub(crate) fn deepen(&self, m: &mut Sheet)
        requires { (b a : ℕ) → b < 64 → sheet m.old b a < 255 }
        ensures { (b : ℕ) → b < 64 → sheet m.new b ≡ further (rel self.now.period) (rel self.now.section) (sheet m.old b) }
    {
        for row in m.iter_mut() {
            *row = self.farther(row);
        }
    }

    // For each j below `steps`, the most period steps from each event to `end` in exactly j steps.
    pub(crate) fn approaches(&self, end: usize, steps: usize) -> Sheet
        requires room { end < 64 }
        requires few { steps ≤ 64 }
        ensures { (j : ℕ) → j < steps → sheet result j ≡ tally (rel self.now.period) (rel self.now.section) j end }
    {
        let mut ways = [[0; 64]; 64];
        ways[0] = at_end(end);
        // by the index, since each row is made from the one before it
        for j in 1..steps {
            ways[j] = self.farther(&ways[j - 1]);
        }
        ways
    }
}
