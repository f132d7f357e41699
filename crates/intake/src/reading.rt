// Reading a text and sealing its case.
ghost use Rattle.intake.specs.Sealing.{SealedFrom};

use crate::kinds::{Refusal, Tables};
use casetext::reading::read;
use tables::SealedCase;

// Reads a text into the tables and seals its case.
pub fn read_sealed(text: &[u8], tables: &mut Tables) -> Result<SealedCase, Refusal>
    ensures { SealedFrom text.now tables.new.events tables.new.ties result }
{
    let open = read(text, &mut tables.events, &mut tables.ties)?;
    Ok(open.seal(&tables.events, &tables.ties)?)
}
