// What a source answered.
ghost use Rattle.std.specs.Prelude.{◌≡◌, ◌≤◌, length};

use executions::Event;

// A case of at most 64 events, copied from its source, so that every question is asked once however slow a source is. The number stands beside
// arrays of fixed size, since nothing here allocates.
#[derive(Drop)]
pub struct Snapshot {
    pub(crate) count: usize,
    pub(crate) events: [Event; 64],
    // The targets of event a in a relation stand in word 64 × (number of the relation − 1) + a.
    pub(crate) words: [u64; 384],
    ghost few: { count ≤ 64 },
    ghost records: { length events ≡ 64 },
    ghost rows: { length words ≡ 384 },
}
