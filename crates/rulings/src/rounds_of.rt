// A shortest round of each rule, as the sheet lists it.
ghost use Rattle.std.specs.Prelude.{◌<◌, List, [], ◌∷◌};
ghost use Rattle.grace.specs.Law.{Rcu as KeepsRcu};
ghost use Rattle.settings.specs.View.{scene as scene_of_setting};
ghost use Rattle.lkmm.specs.Held.{held};
ghost use Rattle.rulings.specs.Pages.{Paged, PageOf};
ghost use Rattle.rulings.specs.Rules.{Keeps, MarkedRound, SplitRound, RoundOf};

use crate::kinds::Rule;
use crate::pages::{Page, cycle_page, padded};
use crate::questions::Question;
use lkmm::{Model, SplitRmw};
use rounds::{Mark, shortest_round};
use settings::Setting;

// A round of a rule that is broken. A match and no closures: the rules are a closed list, and each has its own proof of what its round is.
pub(crate) fn round_of(question: &Question, rule: Rule) -> Page
    requires { Keeps (held question.now.model.now) rule → ⊥ }
    ensures { PageOf (RoundOf (held question.now.model.now) rule) result }
{
    let model = question.model;
    match rule {
        Rule::Scpv => cycle_page(&model.per_place),
        Rule::At => split_page(model),
        Rule::Hb => cycle_page(&model.hb),
        Rule::Pb => cycle_page(&model.pb),
        Rule::Rcu => marked_page(&question.setting),
    }
}

// A read-modify-write that breaks At.
fn split_page(model: &Model) -> Page
    requires { Keeps (held model.now) Rule.At → ⊥ }
    ensures { PageOf (SplitRound (held model.now)) result }
{
    let Some(split) = model.split_rmw() else {
        unreachable()
    };
    three(split)
}

// Its three events.
fn three(split: SplitRmw) -> Page
    requires read { split.read < 64 }
    requires between { split.between < 64 }
    requires write { split.write < 64 }
    ensures { Paged (split.read ∷ split.between ∷ split.write ∷ []) (0 ∷ 0 ∷ 0 ∷ []) result }
{
    let events = [split.read as u8, split.between as u8, split.write as u8];
    Page {
        events: padded(&events),
        marks: padded(&[0; 3]),
        steps: 3,
    }
}

// A round of Rcu, where it is broken.
fn marked_page(setting: &Setting) -> Page
    requires { KeepsRcu (scene_of_setting setting.now) (scene_of_setting setting.now).strong → ⊥ }
    ensures { PageOf (MarkedRound (scene_of_setting setting.now)) result }
{
    let Some(round) = shortest_round(setting) else {
        unreachable()
    };
    let marks = round.marks.map(Mark::number);
    Page {
        events: padded(&round.events[..round.steps]),
        marks: padded(&marks[..round.steps]),
        steps: round.steps,
    }
}
