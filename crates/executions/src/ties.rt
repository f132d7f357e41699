// The relations that tie events, and which events each fits.
ghost use Rattle.std.specs.Prelude.{◌≡◌, ◌+◌, ◌-◌, ◌*◌, ◌≤◌, Some, None, MatchResult};
ghost use Rattle.rows.specs.Row.{bit};
ghost use Rattle.executions.specs.Ties.{relation_number, relation_of, relation_name, fits, depends as after_read};
ghost use Rattle.executions.specs.Words.{ties_of};

use crate::events::Event;
use std::fmt;

// The relations by which a case ties two of its events.
#[derive(Clone, Copy, PartialEq, Eq, Debug)]
pub enum Relation {
    // Reads-from: a write to a read that takes its value.
    Rf = 1,
    // Coherence: a write to one that comes later at the same place.
    Co = 2,
    // Address, data and control dependencies of an event on an earlier read.
    Addr = 3,
    Data = 4,
    Ctrl = 5,
    // The read and the write of one atomic read-modify-write.
    Rmw = 6,
}

impl Relation {
    // All of them, in the order of their numbers.
    pub const ALL: [Relation; 6] = [
        Relation::Rf,
        Relation::Co,
        Relation::Addr,
        Relation::Data,
        Relation::Ctrl,
        Relation::Rmw,
    ];

    // The number by which calls and tables name the relation. A relation is no number, so it stays a method whose name says which one is meant.
    pub fn number(self) -> u8
        ensures { result ≡ relation_number self }
    {
        self as u8
    }

    // The relation's name, also for callers that hold it as a word of a line; `Display` prints it.
    pub fn name(self) -> &'static str
        ensures { result.now ≡ relation_name self }
    {
        match self {
            Relation::Rf => "rf",
            Relation::Co => "co",
            Relation::Addr => "addr",
            Relation::Data => "data",
            Relation::Ctrl => "ctrl",
            Relation::Rmw => "rmw",
        }
    }

    // The word of a tie table that holds the targets of event 0; those of event a stand a words further on.
    pub fn first_word(self) -> usize
        ensures place { result ≡ 64 * (relation_number self - 1) }
        ensures room { result + 64 ≤ 384 }
    {
        64 * (self.number() as usize - 1)
    }

    // The targets of an event in a tie table: none past the 64th event, or where the table ends before.
    pub fn targets(self, ties: &[u64], event: usize) -> u64
        ensures { bit result ≡ ties_of ties.now self event }
    {
        if event >= 64 {
            return 0;
        }
        ties.get(self.first_word() + event).copied().unwrap_or(0)
    }

    // Whether a tie from event number a, which is x, to event number b, which is y, fits the relation.
    pub fn fits(self, a: usize, x: Event, b: usize, y: Event) -> bool
        ensures { result ≡ fits self a x b y }
    {
        let same_place = x.place == y.place;
        match self {
            Relation::Rf => x.is_write() && y.is_read() && same_place,
            Relation::Co => x.is_write() && y.is_write() && same_place && a != b && y.thread != 0,
            Relation::Addr => depends(a, x, b, y) && (y.is_read() || y.is_write()),
            Relation::Data => depends(a, x, b, y) && y.is_write(),
            Relation::Ctrl => depends(a, x, b, y),
            Relation::Rmw => depends(a, x, b, y) && y.is_write() && same_place,
        }
    }
}

// A number that names no relation.
#[derive(Clone, Copy, PartialEq, Eq, Debug)]
pub struct UnknownRelation(pub u32);

impl TryFrom<u32> for Relation {
    type Error = UnknownRelation;

    ghost try_from_gives = { λ number r. MatchResult r (λ relation. Some relation ≡ relation_of number) (λ unknown. (None ≡ relation_of number) × (unknown.0 ≡ number)) };

    fn try_from(number: u32) -> Result<Relation, UnknownRelation> {
        match number {
            1 => Ok(Relation::Rf),
            2 => Ok(Relation::Co),
            3 => Ok(Relation::Addr),
            4 => Ok(Relation::Data),
            5 => Ok(Relation::Ctrl),
            6 => Ok(Relation::Rmw),
            _ => Err(UnknownRelation(number)),
        }
    }
}

impl fmt::Display for Relation {
    ghost output = { λ relation. Some (relation_name relation) };

    fn fmt<W: fmt::Write>(&self, f: &mut fmt::Formatter<W>) -> fmt::Result {
        f.write_str(self.name())
    }
}

// Whether x is a read and y comes after it in program order, as every dependency has it.
fn depends(a: usize, x: Event, b: usize, y: Event) -> bool
    ensures { result ≡ after_read a x b y }
{
    x.is_read() && a < b && x.in_program() && x.thread == y.thread
}
