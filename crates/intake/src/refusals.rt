// How a refusal is told: by its innermost fault and its line.
ghost use Rattle.std.specs.Prelude.{◌≡◌, Some};
ghost use Rattle.intake.specs.Sealing.{of_text, of_case, told};

use crate::kinds::Refusal;
use casetext::TextFault;
use executions::Fault;
use std::fmt;
use tables::OpenCase;

impl From<TextFault> for Refusal {
    ghost from_gives = { λ x y. y ≡ of_text x };

    fn from(fault: TextFault) -> Refusal {
        match fault {
            TextFault::Text(fault) => Refusal {
                fault,
                line: fault.place,
            },
            TextFault::Entry(fault, line) => Refusal { fault, line },
        }
    }
}

// A fault of the whole case has no line.
impl From<Fault> for Refusal {
    ghost from_gives = { λ x y. y ≡ of_case x };

    fn from(fault: Fault) -> Refusal {
        Refusal { fault, line: 0 }
    }
}

// A case that is not sealed comes back open, beside the fault.
impl From<(OpenCase, Fault)> for Refusal {
    ghost from_gives = { λ x y. y ≡ of_case x.1 };

    fn from(back: (OpenCase, Fault)) -> Refusal {
        let (_, fault) = back;
        Refusal::from(fault)
    }
}

impl fmt::Display for Refusal {
    ghost output = { λ r. Some (told r) };

    fn fmt<W: fmt::Write>(&self, f: &mut fmt::Formatter<W>) -> fmt::Result {
        let (number, place, line) = (self.fault.number(), self.fault.place, self.line);
        write!(f, "refused {number} place {place} line {line}")
    }
}
