// Printing a ruling or a refusal.
use crate::lines::Told;
use crate::texts::Judgment;
use intake::Refusal;
use rulings::SheetRow;
use std::io;

// Prints a ruling with what its sheet shows.
pub fn tell(rt: &impl Print, judgment: &Judgment, sheet: &[SheetRow; 64]) -> io::Result<()> {
    rt.print(Told { judgment, sheet })
}

// Prints why a text was refused.
pub fn decline(rt: &impl Print, refusal: Refusal) -> io::Result<()> {
    rt.println(refusal)
}
