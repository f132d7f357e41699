// Judging a case: the reports, the verdict, and the sheet that shows why.
ghost use Rattle.std.specs.Prelude.{◌≡◌};
ghost use Rattle.relations.specs.Algebra.{union};
ghost use Rattle.relations.specs.Table.{table as rows_table};
ghost use Rattle.grace.specs.Law.{enlarged};
ghost use Rattle.settings.specs.View.{scene as scene_of_setting};
ghost use Rattle.sources.specs.Source.{bounded};
ghost use Rattle.lkmm.specs.Held.{held};
ghost use Rattle.lkmm.specs.Model.{hb};
ghost use Rattle.lkmm.specs.Rules.{Scpv as KeepsScpv, Hb as KeepsHb, scene as scene_of_model};
ghost use Rattle.lkmm.specs.View.{Is};
ghost use Rattle.rulings.specs.Steps.{Breached, Orderable, AllowedBy};
ghost use Rattle.rulings.specs.Rules.{Keeps};
ghost use Rattle.rulings.specs.Rulings.{Judged, Ruled};

use crate::kinds::{Breach, Rule, Ruling, SheetRow, Verdict};
use crate::pages::{NONE, Page};
use crate::questions::Question;
use crate::reporting::{broken_first, report_all};
use crate::rounds_of::round_of;
use crate::sheets::{Sheet, draw, places, words};
use executions::{Cause, Fault, Layer};
use lkmm::Model;
use precedence::{FirstTable, enlarged_pb, first_table};
use relations::Relation;
use sources::CaseSource;
use wellformed::check;

// How many rows of the sheet are filled.
pub const ROWS: usize = 64;

// Rules on the case of a source and fills the first 64 rows of the sheet. A refusal leaves the sheet as it was.
pub fn judge<S: CaseSource>(source: &S, sheet: &mut [SheetRow]) -> Result<Ruling, Fault>
    ensures { Judged (bounded (S.CaseSource.meaning source.now)) sheet.old sheet.new result }
{
    if sheet.len() < ROWS {
        return Err(Layer::Check.fault(Cause::TooShort, 0));
    }
    let case = check(source)?;
    let model = Model::of(&case);
    let (ruling, drawn) = rule_on(&Question::of(&model));
    sheet[..ROWS].copy_from_slice(&drawn);
    Ok(ruling)
}

// Rules on a case by its model.
fn rule_on(question: &Question) -> (Ruling, Sheet)
    ensures { Ruled (held question.now.model.now) result.1 result.0 }
{
    let table = first_table(&question.setting);
    let reports = report_all(question.model, table.is_some());
    let words = words(&reports, &table);
    let (verdict, sheet) = match broken_first(reports) {
        Some(rule) => {
            let (breach, sheet) = forbid(question, rule, &words);
            (Verdict::Forbidden(breach), sheet)
        }
        None => (Verdict::Allowed, allow(question, &table, &words)),
    };
    (Ruling { reports, verdict }, sheet)
}

// Lists a round of a broken rule.
fn forbid(question: &Question, rule: Rule, words: &[u64; 64]) -> (Breach, Sheet)
    requires { Keeps (held question.now.model.now) rule → ⊥ }
    ensures { Breached (held question.now.model.now) rule words.now result.1 result.0 }
{
    let page = round_of(question, rule);
    let breach = Breach {
        rule,
        length: page.steps,
    };
    (breach, draw(&page, &[NONE; 64], &[NONE; 64], words))
}

// Lists the two orders of a case that keeps every rule.
fn allow(question: &Question, table: &Option<FirstTable>, words: &[u64; 64]) -> Sheet
    requires scpv_kept { KeepsScpv (held question.now.model.now) }
    requires hb_kept { KeepsHb (held question.now.model.now) }
    requires orderable { Orderable (scene_of_model (held question.now.model.now)) table.now }
    ensures { AllowedBy (held question.now.model.now) table.now words.now result }
{
    let Some(first) = table else { unreachable() };
    let page = Page {
        events: [NONE; 64],
        marks: [NONE; 64],
        steps: 0,
    };
    let joint = joint(question, first);
    draw(
        &page,
        &places(&question.model.per_place),
        &places(&joint),
        words,
    )
}

// What the second order rises along: happens-before, and propagates-before enlarged by the table.
fn joint(question: &Question, table: &FirstTable) -> Relation
    ensures { Is (held question.now.model.now).count (union (hb (held question.now.model.now)) (enlarged (scene_of_model (held question.now.model.now)) (rows_table table.now.rows))) result }
{
    let model = question.model;
    model.hb.union(&enlarged_pb(&question.setting, table))
}
