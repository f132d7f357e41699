// What a search finds, in a file of its own for the sake of the ghost field.
ghost use Rattle.std.specs.Prelude.{◌≤◌};

// A cycle: the first `steps` of the events, in turn, and then the first again.
// The number stands beside an array of fixed size, since nothing here allocates.
#[derive(Clone, Copy)]
pub struct Cycle {
    pub events: [u8; 64],
    pub steps: usize,
    ghost few: { steps ≤ 64 },
}

// An order: the place of each event, 0 for the first.
#[derive(Clone, Copy)]
pub struct Order {
    pub places: [u8; 64],
}
