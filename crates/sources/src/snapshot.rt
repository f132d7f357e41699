// Copying a case from its source, and reading the copy.
ghost use Rattle.std.specs.Prelude.{◌≡◌, ℕ, ◌+◌, ◌*◌, ◌<◌, ◌≤◌, length, take, slice_index};
ghost use Rattle.rows.specs.Row.{bit};
ghost use Rattle.executions.specs.Execution.{count as events_of, event_at};
ghost use Rattle.executions.specs.Ties.{relation_number};
ghost use Rattle.executions.specs.Words.{word_at};
ghost use Rattle.sources.specs.Source.{bounded, targets as asked_targets};
ghost use Rattle.sources.specs.Snapshot.{execution, Copies, RowsCopied};

use crate::asked::CaseSource;
use crate::kinds::Snapshot;
use executions::{Event, Relation};

impl Snapshot {
    // Asks a source for everything. None where it has more than 64 events: then neither events nor rows are asked.
    pub fn of<S: CaseSource>(source: &S) -> Option<Snapshot>
        ensures { Copies (bounded (S.CaseSource.meaning source.now)) result }
    {
        let count = source.count();
        if count > 64 {
            return None;
        }
        let mut events = [Event::UNUSED; 64];
        copy_events(source, count, &mut events);
        let mut words = [0u64; 384];
        copy_rows(source, count, &mut words);
        Some(Snapshot {
            count,
            events,
            words,
        })
    }

    // How many events there are.
    pub fn count(&self) -> usize
        ensures { result ≡ events_of (execution self.now) }
    {
        self.count
    }

    // The event of a number; past the last one a record that holds no event.
    pub fn event(&self, number: usize) -> Event
        ensures { result ≡ event_at (execution self.now) number }
    {
        if number < self.count {
            self.events[number]
        } else {
            Event::UNUSED
        }
    }

    // The events that a relation ties an event to; none past the last one.
    pub fn row(&self, relation: Relation, event: usize) -> u64
        ensures { bit result ≡ (execution self.now).ties relation event }
    {
        if event < self.count {
            self.words[relation.first_word() + event]
        } else {
            0
        }
    }
}

// The events below a count.
fn copy_events<S: CaseSource>(source: &S, count: usize, events: &mut [Event])
    requires all { count ≡ length (S.CaseSource.meaning source.now).events }
    requires room { count ≤ length events.old }
    ensures { take count events.new ≡ (S.CaseSource.meaning source.now).events }
{
    for (i, event) in events[..count].iter_mut().enumerate() {
        *event = source.event(i).unwrap_or(Event::UNUSED);
    }
}

// The rows of all relations for the events below a count.
fn copy_rows<S: CaseSource>(source: &S, count: usize, words: &mut [u64])
    requires few { count ≤ 64 }
    requires room { length words.old ≡ 384 }
    ensures { RowsCopied (S.CaseSource.meaning source.now) 6 count words.new }
{
    for relation in Relation::ALL {
        copy_relation(source, relation, count, words);
    }
}

// The rows of one relation.
fn copy_relation<S: CaseSource>(source: &S, relation: Relation, count: usize, words: &mut [u64])
    requires few { count ≤ 64 }
    requires room { length words.old ≡ 384 }
    ensures copied { (a : ℕ) → a < count → bit (slice_index words.new (word_at (relation_number relation) a)) ≡ asked_targets (S.CaseSource.meaning source.now) (relation_number relation) a }
    ensures before { (i : ℕ) → i < word_at (relation_number relation) 0 → slice_index words.new i ≡ slice_index words.old i }
{
    let first = relation.first_word();
    let number = u32::from(relation.number());
    for (a, word) in words[first..first + count].iter_mut().enumerate() {
        *word = source.row(number, a);
    }
}
