// The columns of the sheet that list a round.
ghost use Rattle.std.specs.Prelude.{◌≤◌, length};
ghost use Rattle.relations.specs.Chains.{Acyclic};
ghost use Rattle.relations.specs.View.{rel};
ghost use Rattle.rulings.specs.Pages.{Column as Listing, PageOf};
ghost use Rattle.rulings.specs.Rules.{CycleRound};

use relations::Relation;
use searches::shortest_cycle;

// A byte for each row: what is listed, and 255 after its end.
pub(crate) type Column = [u8; 64];

// Nothing is listed.
pub(crate) const NONE: u8 = 255;

// A round as the sheet lists it: columns, since each column of the published sheet ends where its own list does.
#[derive(Clone, Copy)]
pub(crate) struct Page {
    pub(crate) events: Column,
    pub(crate) marks: Column,
    pub(crate) steps: usize,
}

// Some bytes, and 255 after them.
pub(crate) fn padded(bytes: &[u8]) -> Column
    requires { length bytes.now ≤ 64 }
    ensures { Listing bytes.now result }
{
    let mut column = [NONE; 64];
    column[..bytes.len()].copy_from_slice(bytes);
    column
}

// A shortest cycle of a relation that has one; its steps bear no mark.
pub(crate) fn cycle_page(relation: &Relation) -> Page
    requires { Acyclic (rel relation.now) → ⊥ }
    ensures { PageOf (CycleRound (rel relation.now)) result }
{
    let Some(cycle) = shortest_cycle(relation) else {
        unreachable()
    };
    Page {
        events: padded(&cycle.events[..cycle.steps]),
        marks: padded(&[0; 64][..cycle.steps]),
        steps: cycle.steps,
    }
}
