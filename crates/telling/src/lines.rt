// The lines that a ruling is printed as.
ghost use Rattle.std.specs.Prelude.{◌≡◌, map, Some};
ghost use Rattle.rulings.specs.Rulings.{row};
ghost use Rattle.std.specs.List.{flat_map};
ghost use Rattle.telling.specs.Lines.{report_lines, entry, list_line, marks_line, pair_line, section_lines, table_lines, forbidden_lines, allowed_lines, ruling_lines};

use crate::texts::Judgment;
use rows::{count, has};
use rulings::{Breach, Reports, Rule, Shape, SheetRow, Verdict};
use std::fmt;

// A ruling with what its sheet shows.
#[derive(Clone, Copy)]
pub struct Told<'a> {
    pub judgment: &'a Judgment,
    pub sheet: &'a [SheetRow; 64],
}

impl<'a> fmt::Display for Told<'a> {
    ghost output = { λ told. Some (ruling_lines told.judgment.now told.sheet.now) };

    fn fmt<W: fmt::Write>(&self, f: &mut fmt::Formatter<W>) -> fmt::Result {
        let (judgment, sheet) = (self.judgment, self.sheet);
        write!(f, "{}", ReportLines(judgment.ruling.reports))?;
        match judgment.ruling.verdict {
            Verdict::Forbidden(breach) => write!(f, "{}", Forbids { breach, sheet }),
            Verdict::Allowed => {
                let shape = judgment.shape;
                write!(f, "{}", Allows { shape, sheet })
            }
        }
    }
}

// A line for each rule.
#[derive(Clone, Copy)]
struct ReportLines(Reports);

impl fmt::Display for ReportLines {
    ghost output = { λ lines. Some (report_lines lines.0) };

    fn fmt<W: fmt::Write>(&self, f: &mut fmt::Formatter<W>) -> fmt::Result {
        let reports = self.0;
        for rule in Rule::ALL {
            writeln!(f, "{rule} {}", reports.of(rule))?;
        }
        Ok(())
    }
}

// The broken rule and its round.
#[derive(Clone, Copy)]
struct Forbids<'a> {
    breach: Breach,
    sheet: &'a [SheetRow; 64],
}

impl<'a> fmt::Display for Forbids<'a> {
    ghost output = { λ told. Some (forbidden_lines told.breach told.sheet.now) };

    #[tactic(auto, unfolding(crate::specs::Lines::forbidden_lines))]
    fn fmt<W: fmt::Write>(&self, f: &mut fmt::Formatter<W>) -> fmt::Result {
        let Breach { rule, length } = self.breach;
        let round = ListLine {
            word: "round",
            count: length,
            entries: events(self.sheet),
        };
        let marks = MarksLine(*self);
        write!(f, "forbidden {rule}\n{round}{marks}")
    }
}

// Only the steps of Rcu bear marks.
#[derive(Clone, Copy)]
struct MarksLine<'a>(Forbids<'a>);

impl<'a> fmt::Display for MarksLine<'a> {
    ghost output = { λ told. Some (marks_line told.0.breach.rule told.0.breach.length told.0.sheet.now) };

    fn fmt<W: fmt::Write>(&self, f: &mut fmt::Formatter<W>) -> fmt::Result {
        let Forbids { breach, sheet } = self.0;
        match breach.rule {
            Rule::Rcu => {
                let marks = ListLine {
                    word: "marks",
                    count: breach.length,
                    entries: marks(sheet),
                };
                write!(f, "{marks}")
            }
            _ => Ok(()),
        }
    }
}

// The two orders and the precedence of sections and periods.
#[derive(Clone, Copy)]
struct Allows<'a> {
    shape: Shape,
    sheet: &'a [SheetRow; 64],
}

impl<'a> fmt::Display for Allows<'a> {
    ghost output = { λ told. Some (allowed_lines told.shape told.sheet.now) };

    #[tactic(auto, unfolding(crate::specs::Lines::allowed_lines))]
    fn fmt<W: fmt::Write>(&self, f: &mut fmt::Formatter<W>) -> fmt::Result {
        let Shape {
            events,
            locks,
            periods,
        } = self.shape;
        let first = ListLine {
            word: "first",
            count: events,
            entries: firsts(self.sheet),
        };
        let second = ListLine {
            word: "second",
            count: events,
            entries: seconds(self.sheet),
        };
        let pairs = count(locks) * count(periods);
        let table = TableLines(*self);
        write!(f, "allowed\n{first}{second}precedence {pairs}\n{table}")
    }
}

// A word, how many entries there are, and so many of them: the rows of a sheet are 64, and its case says how many count.
#[derive(Clone, Copy)]
struct ListLine {
    word: &'static str,
    count: usize,
    entries: [u8; 64],
}

impl fmt::Display for ListLine {
    ghost output = { λ line. Some (list_line line.word.now line.count line.entries) };

    #[tactic(auto, unfolding(crate::specs::Lines::list_line))]
    fn fmt<W: fmt::Write>(&self, f: &mut fmt::Formatter<W>) -> fmt::Result {
        let listed = Entries(&self.entries[..self.count.min(64)]);
        writeln!(f, "{} {}{listed}", self.word, self.count)
    }
}

#[derive(Clone, Copy)]
struct Entries<'a>(&'a [u8]);

impl<'a> fmt::Display for Entries<'a> {
    ghost output = { λ entries. Some (flat_map entry entries.0.now) };

    fn fmt<W: fmt::Write>(&self, f: &mut fmt::Formatter<W>) -> fmt::Result {
        let entries = self.0;
        for entry in entries {
            write!(f, " {entry}")?;
        }
        Ok(())
    }
}

// For each section and each period which of the two goes first. Both loops go by number, since the text is defined by the numbers below n: by
// the members of a row each turn would have to be shown to skip nothing.
#[derive(Clone, Copy)]
struct TableLines<'a>(Allows<'a>);

impl<'a> fmt::Display for TableLines<'a> {
    ghost output = { λ told. Some (table_lines told.0.shape told.0.sheet.now 64) };

    fn fmt<W: fmt::Write>(&self, f: &mut fmt::Formatter<W>) -> fmt::Result {
        let Allows { shape, sheet } = self.0;
        let Shape { locks, periods, .. } = shape;
        for lock in 0..64 {
            if has(locks, lock) {
                let section = SectionLines {
                    lock,
                    word: word_at(sheet, lock),
                    periods,
                };
                write!(f, "{section}")?;
            }
        }
        Ok(())
    }
}

// The lines of one section, whose word has the periods that it goes before.
#[derive(Clone, Copy)]
struct SectionLines {
    lock: usize,
    word: u64,
    periods: u64,
}

impl fmt::Display for SectionLines {
    ghost output = { λ told. Some (section_lines told.lock told.word told.periods 64) };

    fn fmt<W: fmt::Write>(&self, f: &mut fmt::Formatter<W>) -> fmt::Result {
        let SectionLines {
            lock,
            word,
            periods,
        } = *self;
        for period in 0..64 {
            if has(periods, period) {
                let pair = PairLine {
                    lock,
                    period,
                    section_first: has(word, period),
                };
                write!(f, "{pair}")?;
            }
        }
        Ok(())
    }
}

#[derive(Clone, Copy)]
struct PairLine {
    lock: usize,
    period: usize,
    section_first: bool,
}

impl fmt::Display for PairLine {
    ghost output = { λ line. Some (pair_line line.lock line.period line.section_first) };

    #[tactic(auto, unfolding(crate::specs::Lines::pair_line))]
    fn fmt<W: fmt::Write>(&self, f: &mut fmt::Formatter<W>) -> fmt::Result {
        let first = if self.section_first {
            "section"
        } else {
            "period"
        };
        writeln!(f, "{} {} {first}", self.lock, self.period)
    }
}

// The columns of the sheet. Each is a function of its own, since the length of an array is known of a parameter, and not behind a reference in
// a field.
fn events(sheet: &[SheetRow; 64]) -> [u8; 64]
    ensures { result ≡ map (λ r. r.event) sheet.now }
{
    sheet.map(|row| row.event)
}

fn marks(sheet: &[SheetRow; 64]) -> [u8; 64]
    ensures { result ≡ map (λ r. r.mark) sheet.now }
{
    sheet.map(|row| row.mark)
}

fn firsts(sheet: &[SheetRow; 64]) -> [u8; 64]
    ensures { result ≡ map (λ r. r.first) sheet.now }
{
    sheet.map(|row| row.first)
}

fn seconds(sheet: &[SheetRow; 64]) -> [u8; 64]
    ensures { result ≡ map (λ r. r.second) sheet.now }
{
    sheet.map(|row| row.second)
}

// The word of a row, and 0 where there is none.
fn word_at(sheet: &[SheetRow; 64], number: usize) -> u64
    ensures { result ≡ (row sheet.now number).word }
{
    sheet.get(number).map_or(0, |row| row.word)
}
