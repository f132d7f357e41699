// The lines of the ties of a case, one after another.
ghost use Rattle.std.specs.Prelude.{◌≡◌, ◌+◌, ◌-◌, ◌/◌, ◌<◌, true};
ghost use Rattle.std.specs.Iterator.{YieldsFirst, at_most, item_count};
ghost use Rattle.executions.specs.Ties.{relation_of};
ghost use Rattle.sources.specs.Snapshot.{execution};
ghost use Rattle.casetext.specs.Text.{tie_lines, ties_in};
ghost use Rattle.casewriter.specs.Laid.{listed, Bare};
ghost use Rattle.casewriter.specs.Listing.{GivesNumber, lines_ahead, lines_left};

use caselines::Line;
use executions::Relation;
use sources::Snapshot;

// How many ties 64 events could have, in all relations. A tie is known by one number here, in the order in which the text lists them; each
// function of it asks that it is below this, which `next` has just tested.
const TIES: usize = 24576;

// How many of them go out of one event in one relation; their numbers follow one another.
const ROW: usize = 64;

// The numbers of the ties from `number` on. Those of a row that has no tie are passed over at once.
#[derive(Drop)]
pub(crate) struct TieNumbers<'a> {
    pub(crate) case: &'a Snapshot,
    pub(crate) number: usize,
}

impl<'a> TieNumbers<'a> {
    pub(crate) fn of(case: &'a Snapshot) -> TieNumbers<'a>
        ensures same { result.case.now ≡ case.now }
        ensures all { lines_ahead result ≡ ties_in (execution case.now) }
    {
        TieNumbers { case, number: 0 }
    }
}

impl<'a> Iterator for TieNumbers<'a> {
    type Item = usize;

    ghost next_gives = { GivesNumber };

    ghost remaining = { λ s. at_most (24576 - s.number) };

    fn next(&mut self) -> Option<usize> {
        // Not a range, since a row with no tie is passed over at once.
        while self.number < TIES {
            let number = self.number;
            if is_bare(self.case, number) {
                self.number += ROW;
                continue;
            }
            self.number += 1;
            return Some(number);
        }
        None
    }
}

// The lines of the ties with those numbers.
#[derive(Drop)]
pub(crate) struct TieLines<'a> {
    pub(crate) numbers: TieNumbers<'a>,
}

impl<'a> TieLines<'a> {
    pub(crate) fn of(case: &'a Snapshot) -> TieLines<'a>
        ensures { lines_left result ≡ ties_in (execution case.now) }
    {
        TieLines {
            numbers: TieNumbers::of(case),
        }
    }
}

impl<'a> Iterator for TieLines<'a> {
    type Item = Line;

    ghost next_gives = { YieldsFirst lines_left };

    ghost remaining = { item_count lines_left };

    fn next(&mut self) -> Option<Line> {
        // Written out, since from what `find_map` promises the check does not find which lines are left.
        while let Some(number) = self.numbers.next() {
            if let Some(line) = tie_line(self.numbers.case, number) {
                return Some(line);
            }
        }
        None
    }
}

// The relation of the tie of a number.
fn relation_at(number: usize) -> Option<Relation>
    requires { number < 24576 }
    ensures { result ≡ relation_of (number / 4096 + 1) }
{
    Relation::try_from((number / (ROW * ROW) + 1) as u32).ok()
}

// The line of the tie of a number, where the case has it.
pub(crate) fn tie_line(case: &Snapshot, number: usize) -> Option<Line>
    requires { number < 24576 }
    ensures { listed result ≡ tie_lines (execution case.now) number }
{
    let relation = relation_at(number)?;
    let (first, second) = (number / ROW % ROW, number % ROW);
    let there = first < case.count()
        && second < case.count()
        && rows::has(case.row(relation, first), second);
    there.then_some(Line::Tie(relation, first as u32, second as u32))
}

// Whether a number begins a row that has no tie, so that all of it can be passed over.
fn is_bare(case: &Snapshot, number: usize) -> bool
    requires { number < 24576 }
    ensures { result ≡ true → Bare (execution case.now) number }
{
    let Some(relation) = relation_at(number) else {
        return false;
    };
    number % ROW == 0 && case.row(relation, number / ROW % ROW) == 0
}
