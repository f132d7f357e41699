// A shortest cycle: relations of exactly 1, 2, .. steps are computed until one relates an event to itself.
ghost use Rattle.std.specs.Prelude.{◌≡◌, ℕ, ◌<◌, ◌≤◌, true, false, not, ◌&&◌, length, is_some, IfSome, Decides, MatchOption, slice_index};
ghost use Rattle.rows.specs.Row.{bit};
ghost use Rattle.relations.specs.Algebra.{any};
ghost use Rattle.relations.specs.Chains.{Acyclic};
ghost use Rattle.relations.specs.View.{rel};
ghost use Rattle.searches.specs.Cycles.{IsCycle, IsLowestLoop, IsShortest};
ghost use Rattle.searches.specs.View.{listed};
ghost use Rattle.searches.specs.Walks.{walks, reaching};

use crate::kinds::Cycle;
use relations::Relation;
use rows::{lowest, with};

// A shortest cycle, from its lowest event; none where the relation has no cycle.
pub fn shortest_cycle(x: &Relation) -> Option<Cycle>
    ensures none { Decides (not (is_some result)) (Acyclic (rel x.now)) }
    ensures found { IfSome result (λ c. IsShortest (rel x.now) (listed c)) }
{
    // the closure tells sooner than the powers that there is nothing to find
    if x.acyclic() {
        return None;
    }
    let mut power = *x;
    for steps in 1..=x.events() {
        if let Some(start) = lowest_loop(&power) {
            return Some(trace(x, start, steps));
        }
        power = x.seq(&power);
    }
    None
}

// The lowest event that is related to itself.
pub(crate) fn lowest_loop(x: &Relation) -> Option<usize>
    ensures { MatchOption result ((a : ℕ) → rel x.now a a ≡ false) (λ a. IsLowestLoop (rel x.now) a) }
{
    (0..x.events()).find(|a| x.has(*a, *a))
}

// For each j below `steps`, the events from which `end` is reached in exactly j steps.
fn approaches(x: &Relation, end: usize, steps: usize) -> [u64; 64]
    requires event { end < 64 }
    requires few { steps ≤ 64 }
    ensures { (j : ℕ) → j < steps → bit (slice_index result j) ≡ reaching j (rel x.now) end }
{
    let back = x.inverse();
    let mut ways = [0; 64];
    ways[0] = with(0, end);
    // by its number, since each is made from the one before it
    for j in 1..steps {
        ways[j] = back.image(ways[j - 1]);
    }
    ways
}

// The lowest target from which the way goes on.
fn onward(targets: u64, ways: u64) -> usize
    requires { any 64 (λ c. bit targets c && bit ways c) ≡ true }
    ensures room { result < 64 }
    ensures target { bit targets result ≡ true }
    ensures way { bit ways result ≡ true }
{
    lowest(targets & ways).unwrap()
}

// The cycle of so many steps from `start` that takes the lowest next event each time.
fn trace(x: &Relation, start: usize, steps: usize) -> Cycle
    requires some { 0 < steps }
    requires few { steps ≤ 64 }
    requires closed { walks steps (rel x.now) start start ≡ true }
    ensures cycle { IsCycle (rel x.now) (listed result) }
    ensures long { length (listed result) ≡ steps }
    ensures first { slice_index (listed result) 0 ≡ start }
{
    let ways = approaches(x, start, steps);
    let mut events = [0; 64];
    events[0] = start as u8;
    // by its number, since each is found from the one before it, and the ways are taken from the last
    for i in 1..steps {
        let last = events[i - 1] as usize;
        events[i] = onward(x.row(last), ways[steps - i]) as u8;
    }
    Cycle { events, steps }
}
