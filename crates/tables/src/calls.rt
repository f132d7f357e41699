// The calls that build a case. The tables are the caller's and come with each call; a relation is named by its number, since a caller may name
// one that there is not.
ghost use Rattle.std.specs.Prelude.{◌≡◌, ◌≤◌, ◌||◌, cond, length, Some, None};
ghost use Rattle.std.specs.Result.{result_err};
ghost use Rattle.rows.specs.Row.{adding, dropping};
ghost use Rattle.executions.specs.declared.faults.Cause.TheVariants.{TooShort};
ghost use Rattle.executions.specs.declared.ties.Relation.TheVariants.{Rmw};
ghost use Rattle.executions.specs.Words.{ties_of, word_at as word_number};
ghost use Rattle.tables.specs.Plain.{enter_plain, tie_plain, untie_plain, named as named_plain, short as too_short, taken, has_rf, in_rmw};
ghost use Rattle.tables.specs.Tables.{tables, Does, Opened, Entered, Written};

use crate::kinds::OpenCase;
use executions::{Cause, Event, Fault, Layer, Relation};

// How many event records and tie words a case needs; longer tables are untouched past them.
pub const RECORDS: usize = 64;

pub const WORDS: usize = 384;

impl OpenCase {
    // Opens a blank case in two tables, which it sets to zeros.
    pub fn open(events: &mut [Event], ties: &mut [u64]) -> Result<OpenCase, Fault>
        ensures { Opened events.old ties.old events.new ties.new result }
    {
        test_lengths(Layer::Entry, events.len(), ties.len())?;
        events[..RECORDS].fill(Event::UNUSED);
        ties[..WORDS].fill(0);
        Ok(OpenCase { count: 0 })
    }

    // Appends an event and answers its number.
    pub fn enter(
        &mut self,
        events: &mut [Event],
        ties: &[u64],
        event: Event,
    ) -> Result<usize, Fault>
        ensures does { Does (enter_plain (length events.old) (length ties.now) event) (tables self.old events.old ties.now) (tables self.new events.new ties.now) result }
        ensures writes { Entered event (tables self.old events.old ties.now) (tables self.new events.new ties.now) result }
    {
        test_lengths(Layer::Entry, events.len(), ties.len())?;
        if self.count >= RECORDS {
            return Err(Layer::Entry.fault(Cause::TooManyEvents, 64));
        }
        if !event.in_range() {
            return Err(Layer::Entry.fault(Cause::OutOfRange, self.count as u32));
        }
        let number = self.count;
        events[number] = event;
        self.count = number + 1;
        Ok(number)
    }

    // Adds the tie from the first event to the second, by the number of its relation.
    pub fn tie(
        &self,
        events: &[Event],
        ties: &mut [u64],
        relation: u32,
        first: u32,
        second: u32,
    ) -> Result<(), Fault>
        ensures does { Does (tie_plain (length events.now) (length ties.old) relation first second) (tables self.now events.now ties.old) (tables self.now events.now ties.new) result }
        ensures writes { Written (word_number relation first) (adding second) ties.old ties.new result }
    {
        let known = self.named(events.len(), ties.len(), relation, first, second)?;
        let (a, b) = (first as usize, second as usize);
        if !known.fits(a, events[a], b, events[b]) {
            return Err(Layer::Entry.fault(Cause::DoesNotFit, first));
        }
        if is_taken(ties, self.count, known, a, b) {
            return Err(Layer::Entry.fault(Cause::OverLimit, second));
        }
        let at = known.first_word() + a;
        ties[at] = rows::with(ties[at], b);
        Ok(())
    }

    // Takes the tie from the first event to the second out again.
    pub fn untie(
        &self,
        events: &[Event],
        ties: &mut [u64],
        relation: u32,
        first: u32,
        second: u32,
    ) -> Result<(), Fault>
        ensures does { Does (untie_plain (length events.now) (length ties.old) relation first second) (tables self.now events.now ties.old) (tables self.now events.now ties.new) result }
        ensures writes { Written (word_number relation first) (dropping second) ties.old ties.new result }
    {
        let known = self.named(events.len(), ties.len(), relation, first, second)?;
        let (a, b) = (first as usize, second as usize);
        if !is_tied(ties, known, a, b) {
            return Err(Layer::Entry.fault(Cause::NoSuchTie, first));
        }
        let at = known.first_word() + a;
        ties[at] = rows::without(ties[at], b);
        Ok(())
    }

    // What tie and untie test first: the tables, the relation and the two events.
    fn named(
        &self,
        records: usize,
        words: usize,
        relation: u32,
        first: u32,
        second: u32,
    ) -> Result<Relation, Fault>
        ensures { result ≡ named_plain records words self.now.count relation first second }
    {
        test_lengths(Layer::Entry, records, words)?;
        let Ok(known) = Relation::try_from(relation) else {
            return Err(Layer::Entry.fault(Cause::NoSuchRelation, relation));
        };
        if first as usize >= self.count {
            return Err(Layer::Entry.fault(Cause::NoSuchEvent, first));
        }
        if second as usize >= self.count {
            return Err(Layer::Entry.fault(Cause::NoSuchEvent, second));
        }
        Ok(known)
    }
}

// Whether the tables tie a to b.
fn is_tied(ties: &[u64], relation: Relation, a: usize, b: usize) -> bool
    ensures { result ≡ ties_of ties.now relation a b }
{
    rows::has(relation.targets(ties, a), b)
}

// Whether a tie is there, or would be one too many among n events.
fn is_taken(ties: &[u64], n: usize, relation: Relation, a: usize, b: usize) -> bool
    requires { n ≤ 64 }
    ensures { result ≡ taken n (ties_of ties.now) relation a b }
{
    if is_tied(ties, relation, a, b) {
        return true;
    }
    match relation {
        Relation::Rf => has_rf(ties, n, b),
        Relation::Rmw => in_rmw(ties, n, a) || in_rmw(ties, n, b),
        _ => false,
    }
}

// Whether some of n events has an rf tie to the read b. That there are at most 64 is said in the code too: it spares a test at each of them.
fn has_rf(ties: &[u64], n: usize, b: usize) -> bool
    requires { n ≤ 64 }
    ensures { result ≡ has_rf n (ties_of ties.now) b }
{
    (0..n.min(64)).any(|a| is_tied(ties, Relation::Rf, a, b))
}

// Whether the event e stands in an rmw tie with some of n events, of which the code says too that they are at most 64.
fn in_rmw(ties: &[u64], n: usize, e: usize) -> bool
    requires { n ≤ 64 }
    ensures { result ≡ in_rmw n (ties_of ties.now) e }
{
    (0..n.min(64)).any(|d| is_joined(ties, e, d))
}

// Whether an rmw tie goes from e to d or back.
fn is_joined(ties: &[u64], e: usize, d: usize) -> bool
    ensures { result ≡ (ties_of ties.now Rmw e d || ties_of ties.now Rmw d e) }
{
    is_tied(ties, Relation::Rmw, e, d) || is_tied(ties, Relation::Rmw, d, e)
}

// Refuses, for the layer of a call, tables that have too few records or words.
pub(crate) fn test_lengths(layer: Layer, records: usize, words: usize) -> Result<(), Fault>
    ensures { result_err result ≡ cond (too_short records words) (Some (record { cause = TooShort; layer = layer; place = 0 })) None }
{
    if records < RECORDS || words < WORDS {
        Err(layer.fault(Cause::TooShort, 0))
    } else {
        Ok(())
    }
}
