// The one type of this crate, in a file of its own for the sake of its ghost fields.
ghost use Rattle.std.specs.Prelude.{◌≤◌};
ghost use Rattle.relations.specs.Table.{table, On};

// A relation on the events below `events`, of which there are at most 64. Row a has bit b set when a is related to b.
// No row has a bit at or past `events`, and the rows from there on are empty, so loops end at `events`.
// The number stands beside an array of fixed size, since nothing here allocates.
#[derive(Clone, Copy)]
pub struct Relation {
    pub(crate) rows: [u64; 64],
    pub(crate) events: usize,
    ghost few: { events ≤ 64 },
    ghost inside: { On events (table rows) },
}
