// The states of a case, and the case in two tables as a source. The tables are the caller's; a case holds only numbers about them.
ghost use Rattle.std.specs.Prelude.{◌≡◌, ◌≤◌};

use executions::Event;

// A case that is being built: it takes events and ties, and no ruling.
#[derive(Drop)]
pub struct OpenCase {
    // How many records of the event table hold its events, from the first one on.
    pub(crate) count: usize,
    ghost room: { count ≤ 64 },
}

// A well-formed case: it takes no more events or ties, and can be judged.
#[derive(Drop)]
pub struct SealedCase {
    pub(crate) count: usize,
    ghost room: { count ≤ 64 },
}

// The case that two tables hold. It is made only of tables that are long enough; on shorter ones it would hold what they have.
#[derive(Drop)]
pub struct TableSource<'a> {
    pub(crate) count: usize,
    pub(crate) events: &'a [Event],
    pub(crate) ties: &'a [u64],
}

impl OpenCase {
    // How many events the case has.
    pub fn count(&self) -> usize
        ensures { result ≡ self.now.count }
    {
        self.count
    }
}
