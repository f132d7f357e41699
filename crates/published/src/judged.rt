// Ruling on a text, and comparing the ruling with what is published.
ghost use Rattle.std.specs.Prelude.{◌≡◌, Decides};
ghost use Rattle.published.specs.Outcomes.{outcome_of, Agrees, TextRuling};

use crate::kinds::Outcome;
use rulings::kinds::{Ruling, SheetRow, Verdict};
use telling::judge_text;

// Rules on the case of a text; nothing where the text is refused.
pub(crate) fn rule_on_text(text: &[u8]) -> Option<Ruling>
    ensures { TextRuling text.now result }
{
    let mut sheet = [SheetRow::BLANK; 64];
    let judgment = judge_text(text, &mut sheet).ok()?;
    Some(judgment.ruling)
}

// A verdict in the words of the table.
impl From<Verdict> for Outcome {
    ghost from_gives = { λ verdict outcome. outcome ≡ outcome_of verdict };

    fn from(verdict: Verdict) -> Outcome {
        match verdict {
            Verdict::Allowed => Outcome::Allow,
            Verdict::Forbidden(_) => Outcome::Forbid,
        }
    }
}

// Whether a text is ruled on as it is published.
pub(crate) fn agrees(outcome: Outcome, ruling: Option<Ruling>) -> bool
    ensures { Decides result (Agrees outcome ruling) }
{
    ruling.is_some_and(|ruling| Outcome::from(ruling.verdict) == outcome)
}
