// The check of a whole case: whether a candidate execution is well formed, and its first fault if it is not.
#![tactic(auto)]

ghost use Rattle.std.specs.Prelude.{◌≡◌};
ghost use Rattle.std.specs.Result.{result_err};
ghost use Rattle.sources.specs.Snapshot.{execution};
ghost use Rattle.sources.specs.Source.{bounded};
ghost use Rattle.wellformed.specs.Faults.{first_fault};
ghost use Rattle.wellformed.specs.WellFormed.{Checked, Inside};

mod declining;
pub mod locks;
mod places;
mod ties;

use executions::{Cause, Fault, Layer};
use sources::{CaseSource, Snapshot};

// Checks the case of a source: a copy of it if it is well formed, else its first fault.
pub fn check<S: CaseSource>(source: &S) -> Result<Snapshot, Fault>
    ensures { Checked (bounded (S.CaseSource.meaning source.now)) result }
{
    let case = Snapshot::of(source).ok_or(Layer::Check.fault(Cause::TooManyEvents, 64))?;
    test_case(&case)?;
    Ok(case)
}

// Declines with the first fault of a case of at most 64 events.
fn test_case(case: &Snapshot) -> Result<(), Fault>
    requires { Inside (execution case.now) }
    ensures { result_err result ≡ first_fault (execution case.now) }
{
    ties::test_events(case)?;
    ties::test_ties(case)?;
    ties::test_reads(case)?;
    places::test_initials(case)?;
    places::test_coherence(case)?;
    locks::test_locks(case)
}
