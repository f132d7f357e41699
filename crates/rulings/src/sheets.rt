// Filling the sheet: the precedence words, the two orders, and the rows.
ghost use Rattle.std.specs.Prelude.{◌≡◌};
ghost use Rattle.relations.specs.Chains.{Acyclic};
ghost use Rattle.relations.specs.View.{rel, size};
ghost use Rattle.rulings.specs.Pages.{Drawn, OrderIn};
ghost use Rattle.rulings.specs.Tables.{words_of};

use crate::kinds::{Report, Reports, SheetRow};
use crate::pages::{Column, Page, padded};
use precedence::FirstTable;
use relations::Relation;
use searches::order;

// The rows that a ruling fills.
pub(crate) type Sheet = [SheetRow; 64];

// The words of the table where Pb and Rcu are both kept, else zeros.
pub(crate) fn words(reports: &Reports, table: &Option<FirstTable>) -> [u64; 64]
    ensures { result ≡ words_of reports.now table.now }
{
    match table {
        Some(first) if reports.pb == Report::Kept && reports.rcu == Report::Kept => first.rows,
        _ => [0; 64],
    }
}

// The places of the events in an order that rises along an acyclic relation.
pub(crate) fn places(relation: &Relation) -> Column
    requires { Acyclic (rel relation.now) }
    ensures { OrderIn (rel relation.now) (size relation.now) result }
{
    let Some(found) = order(relation) else {
        unreachable()
    };
    padded(&found.places[..relation.events()])
}

// The rows that are made of these columns.
pub(crate) fn draw(page: &Page, first: &Column, second: &Column, words: &[u64; 64]) -> Sheet
    ensures { Drawn page.now first.now second.now words.now result }
{
    let mut sheet = [SheetRow::BLANK; 64];
    for (i, row) in sheet.iter_mut().enumerate() {
        *row = SheetRow {
            event: page.events[i],
            mark: page.marks[i],
            first: first[i],
            second: second[i],
            word: words[i],
        };
    }
    sheet
}
