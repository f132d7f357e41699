// A shortest round: layers of exactly 1, 2, .. steps until one comes back, and then its steps one after another.
// A shortest cycle is searched in the same order, by sets of events where this has tallies, in one relation where this has two. The two
// have only their loops in common: a trait for layer, step and best step would be longer than these.
ghost use Rattle.std.specs.Prelude.{◌≡◌, ℕ, ◌+◌, ◌*◌, ◌<◌, ◌≤◌, max, true, not, length, is_some, IfSome, Decides, slice_index};
ghost use Rattle.rows.specs.Row.{bit};
ghost use Rattle.relations.specs.View.{rel};
ghost use Rattle.grace.specs.Law.{Rcu};
ghost use Rattle.grace.specs.Sheet.{most};
ghost use Rattle.precedence.specs.Rows.{cells};
ghost use Rattle.settings.specs.View.{scene};
ghost use Rattle.rounds.specs.Layers.{raised, tally, BestStep};
ghost use Rattle.rounds.specs.Rounds.{IsRound, IsShortestRound};
ghost use Rattle.rounds.specs.View.{listed, marks};

use crate::kinds::{Mark, Round};
use crate::layers::{Steps, lowest_closed, no_steps, raise};
use precedence::{Row, best, first_table};
use rows::members;
use settings::Setting;

// A step: its mark, and the event that it leads to.
#[derive(Clone, Copy)]
struct Step {
    mark: Mark,
    to: usize,
}

// An event of the set with the largest entry.
fn holder(row: &Row, set: u64, value: u8) -> usize
    requires some { 1 ≤ value }
    requires largest { value ≡ most 64 (bit set) (cells row.now) }
    ensures room { result < 64 }
    ensures member { bit set result ≡ true }
    ensures entry { cells row.now result ≡ value }
{
    // A loop and no `find`: of a walk through a row the library has no lemma on it.
    for c in members(set) {
        if row[c] == value {
            return c;
        }
    }
    unreachable()
}

// The step that leaves the most period steps: a section step where both leave as many.
fn onward(up: u64, down: u64, row: &Row) -> Step
    requires rows_fit { (b : ℕ) → cells row.now b < 255 }
    requires some_way { 1 ≤ max (raised (most 64 (bit up) (cells row.now))) (most 64 (bit down) (cells row.now)) }
    ensures { BestStep (bit up) (bit down) (cells row.now) result.mark result.to }
{
    let by_period = best(row, up);
    let by_section = best(row, down);
    if by_section < raise(by_period) {
        Step {
            mark: Mark::Period,
            to: holder(row, up, by_period),
        }
    } else {
        Step {
            mark: Mark::Section,
            to: holder(row, down, by_section),
        }
    }
}

// The round of so many steps from `start` that takes the best step each time.
fn trace(by: &Steps, start: usize, steps: usize) -> Round
    requires room { start < 64 }
    requires some { 0 < steps }
    requires few { steps ≤ 64 }
    requires closes { steps + 2 ≤ 2 * tally (rel by.now.period) (rel by.now.section) steps start start }
    ensures round { IsRound (rel by.now.period) (rel by.now.section) (listed result) (marks result) }
    ensures long { length (listed result) ≡ steps }
    ensures first { slice_index (listed result) 0 ≡ start }
{
    let ways = by.approaches(start, steps);
    let mut events = [0; 64];
    let mut marks = [Mark::Period; 64];
    let mut at = start;
    // by the index, since two arrays are written and the ways are read from the last to the first
    for i in 0..steps {
        let step = onward(by.period.row(at), by.section.row(at), &ways[steps - 1 - i]);
        events[i] = at as u8;
        marks[i] = step.mark;
        at = step.to;
    }
    Round {
        events,
        marks,
        steps,
    }
}

// A shortest round of Rcu, from its lowest event; none where Rcu is kept.
pub fn shortest_round(x: &Setting) -> Option<Round>
    ensures none { Decides (not (is_some result)) (Rcu (scene x.now) (scene x.now).strong) }
    ensures found { IfSome result (λ c. IsShortestRound (scene x.now) (listed c) (marks c)) }
{
    // the sheet of balances tells sooner than the layers that there is nothing to find
    if first_table(x).is_some() {
        return None;
    }
    let by = Steps::of(x);
    let mut layer = no_steps();
    for steps in 1..=x.events() {
        by.deepen(&mut layer);
        if let Some(start) = lowest_closed(&layer, steps) {
            return Some(trace(&by, start, steps));
        }
    }
    None
}
