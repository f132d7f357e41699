// From a text to its ruling.
ghost use Rattle.telling.specs.Texts.{JudgedText, JudgedSealed};

use executions::{Event, Fault};
use intake::{Refusal, Tables, read_sealed};
use rulings::{Ruling, Shape, SheetRow, judge};
use tables::SealedCase;
use wellformed::check;

// A ruling, and what there is in its case to put in an order.
#[derive(Clone, Copy)]
pub struct Judgment {
    pub ruling: Ruling,
    pub shape: Shape,
}

// Reads a text, seals its case and judges it.
pub fn judge_text(text: &[u8], sheet: &mut [SheetRow; 64]) -> Result<Judgment, Refusal>
    ensures { JudgedText text.now sheet.old sheet.new result }
{
    let mut tables = Tables::BLANK;
    let case = read_sealed(text, &mut tables)?;
    Ok(judge_sealed(&case, &tables.events, &tables.ties, sheet)?)
}

// Judges a sealed case through its table source.
pub fn judge_sealed<'a>(
    case: &SealedCase,
    events: &'a [Event],
    ties: &'a [u64],
    sheet: &mut [SheetRow],
) -> Result<Judgment, Fault>
    ensures { JudgedSealed case.now events.now ties.now sheet.old sheet.new result }
{
    let source = case.source(events, ties)?;
    let ruling = judge(&source, sheet)?;
    let copy = check(&source)?;
    Ok(Judgment {
        ruling,
        shape: Shape::of(&copy),
    })
}
