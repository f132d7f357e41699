// How a test of the check declines, and tests that are made one after another.
ghost use Rattle.std.specs.Prelude.{◌≡◌, ℕ, ◌<◌};
ghost use Rattle.std.specs.Result.{result_err};
ghost use Rattle.wellformed.specs.Faults.{fault_if, FirstOf};

use executions::{Cause, Fault, Layer};

// Declines for a cause, at a place of the case, where something is amiss. No event, and no place of a case, is past 64, so that it fits a fault.
pub(crate) fn decline_if(amiss: bool, cause: Cause, place: usize) -> Result<(), Fault>
    requires { place < 65 }
    ensures { result_err result ≡ fault_if amiss cause place }
{
    if amiss {
        Err(Layer::Check.fault(cause, place as u32))
    } else {
        Ok(())
    }
}

// Tests 0, 1 and so on, below n, up to the first fault.
pub(crate) fn test_each<F: Fn(usize) -> Result<(), Fault>>(n: usize, test: F) -> Result<(), Fault>
    requires { (i : ℕ) → i < n → F.pre test i }
    ensures { FirstOf n (F.post test) result }
{
    for i in 0..n {
        test(i)?;
    }
    Ok(())
}
