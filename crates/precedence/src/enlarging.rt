// pb enlarged by a table of precedence: what the table puts in an order is fenced.
ghost use Rattle.std.specs.Prelude.{◌≡◌};
ghost use Rattle.rows.specs.Row.{bit};
ghost use Rattle.relations.specs.Algebra.{union};
ghost use Rattle.relations.specs.Table.{table as relation_of};
ghost use Rattle.relations.specs.View.{rel, size};
ghost use Rattle.grace.specs.Law.{pairs, enlarged};
ghost use Rattle.precedence.specs.Fences.{section_row, period_row};
ghost use Rattle.settings.specs.View.{scene};

use crate::kinds::FirstTable;
use relations::Relation;
use settings::Setting;

// The fence pairs of one row. The section goes before the periods of the row, and after all others; what else the row has is no period.
fn row_pairs(x: &Setting, l: usize, row: u64) -> Relation
    ensures pairs { rel result ≡ union (section_row (scene x.now) l (bit row)) (period_row (scene x.now) l (bit row)) }
    ensures events { size result ≡ (scene x.now).count }
{
    let n = x.events();
    let section_first = Relation::product(n, x.before_unlock(l), x.from_any(x.periods() & row));
    let period_first = Relation::product(n, x.before_any(x.periods() & !row), x.from_on(l));
    section_first.union(&period_first)
}

// The fence pairs of all rows that are the row of a lock.
fn table_pairs(x: &Setting, table: &FirstTable) -> Relation
    ensures pairs { rel result ≡ pairs (scene x.now) (relation_of table.now.rows) }
    ensures events { size result ≡ (scene x.now).count }
{
    let mut all = Relation::empty(x.events());
    for (l, row) in table.rows.iter().enumerate() {
        if x.is_lock(l) {
            all = all.union(&row_pairs(x, l, *row));
        }
    }
    all
}

// pb enlarged by the pairs of a table: they count as strong fences too.
pub fn enlarged_pb(x: &Setting, table: &FirstTable) -> Relation
    ensures pairs { rel result ≡ enlarged (scene x.now) (relation_of table.now.rows) }
    ensures events { size result ≡ (scene x.now).count }
{
    x.pb_with(&table_pairs(x, table))
}
