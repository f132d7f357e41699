// What the search finds, in a file of its own for the sake of the ghost field.
ghost use Rattle.std.specs.Prelude.{◌≤◌};

// How a step counts: through a grace period, or through a read-side critical section.
#[derive(Clone, Copy)]
pub enum Mark {
    Period = 1,
    Section = 2,
}

// A round: from each of the first `steps` events a step of its mark leads to the next, and from the last of them to the first. Events and
// marks are two arrays, and not one of pairs, since each is a column of its own where a round is listed.
#[derive(Clone, Copy)]
pub struct Round {
    pub events: [u8; 64],
    pub marks: [Mark; 64],
    pub steps: usize,
    ghost few: { steps ≤ 64 },
}
