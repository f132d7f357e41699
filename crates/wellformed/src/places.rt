// The tests of places: their initial writes, and the coherence order of their writes. A place is passed beside its case: it is the next number of
// a walk, and no value that lasts.
ghost use Rattle.std.specs.Prelude.{◌≡◌, ℕ, ◌+◌, ◌<◌, ◌≤◌, true, ◌&&◌};
ghost use Rattle.std.specs.Result.{result_err};
ghost use Rattle.rows.specs.Row.{any, count as many};
ghost use Rattle.relations.specs.Algebra.{plus};
ghost use Rattle.relations.specs.View.{rel};
ghost use Rattle.executions.specs.declared.ties.Relation.TheVariants.{Co};
ghost use Rattle.executions.specs.Execution.{count};
ghost use Rattle.sources.specs.Snapshot.{execution};
ghost use Rattle.wellformed.specs.Events.{accesses, writes, initials, co};
ghost use Rattle.wellformed.specs.Faults.{first, initial_fault as initial_first, coherence_fault as coherence_first, unordered, disordered};

use crate::declining::{decline_if, test_each};
use executions::{Cause, Fault, Relation};
use relations::Relation as Matrix;
use sources::Snapshot;

// Declines with the first place in use that has not exactly one initial write.
pub(crate) fn test_initials(case: &Snapshot) -> Result<(), Fault>
    ensures { result_err result ≡ first 16 (λ k. initial_first (execution case.now) (k + 1)) }
{
    test_each(16, |k| test_initial(case, k + 1))
}

fn test_initial(case: &Snapshot, place: usize) -> Result<(), Fault>
    requires { place < 65 }
    ensures { result_err result ≡ initial_first (execution case.now) place }
{
    let amiss = is_used(case, place) && initial_writes(case, place) != 1;
    decline_if(amiss, Cause::InitialWrites, place)
}

// Whether some event reads or writes the place.
fn is_used(case: &Snapshot, place: usize) -> bool
    ensures { result ≡ any (count (execution case.now)) (accesses (execution case.now) place) }
{
    (0..case.count()).any(|i| is_access(case, i, place))
}

fn is_access(case: &Snapshot, i: usize, place: usize) -> bool
    ensures { result ≡ accesses (execution case.now) place i }
{
    let event = case.event(i);
    (event.is_read() || event.is_write()) && event.place as usize == place
}

// How many initial writes the place has.
fn initial_writes(case: &Snapshot, place: usize) -> usize
    ensures { result ≡ many (count (execution case.now)) (initials (execution case.now) place) }
{
    (0..case.count())
        .filter(|&i| is_initial(case, i, place))
        .count()
}

fn is_initial(case: &Snapshot, i: usize, place: usize) -> bool
    ensures { result ≡ initials (execution case.now) place i }
{
    is_write_at(case, i, place) && case.event(i).thread == 0
}

fn is_write_at(case: &Snapshot, i: usize, place: usize) -> bool
    ensures { result ≡ writes (execution case.now) place i }
{
    let event = case.event(i);
    event.is_write() && event.place as usize == place
}

// Declines with the first place whose writes coherence does not put in a total order.
pub(crate) fn test_coherence(case: &Snapshot) -> Result<(), Fault>
    requires { (a b : ℕ) → (execution case.now).ties Co a b ≡ true → b < count (execution case.now) }
    ensures { result_err result ≡ first 16 (λ k. coherence_first (execution case.now) (k + 1)) }
{
    let order = tied(case).plus();
    let coherence = Coherence { case, order };
    test_each(16, |k| coherence.test_place(k + 1))
}

// Coherence as it is tied.
fn tied(case: &Snapshot) -> Matrix
    requires { (a b : ℕ) → (execution case.now).ties Co a b ≡ true → b < count (execution case.now) }
    ensures { rel result ≡ co (execution case.now) }
{
    Matrix::by_rows(case.count(), |a| case.row(Relation::Co, a))
}

// A case beside the order that its coherence ties make.
#[derive(Drop)]
struct Coherence<'a> {
    case: &'a Snapshot,
    order: Matrix,
    ghost closed: { rel order ≡ plus (co (execution case.now)) },
}

impl Coherence<'_> {
    fn test_place(&self, place: usize) -> Result<(), Fault>
        requires { place < 65 }
        ensures { result_err result ≡ coherence_first (execution self.now.case.now) place }
    {
        let amiss = (0..self.case.count()).any(|v| self.is_disordered(place, v));
        decline_if(amiss, Cause::CoherenceNotTotal, place)
    }

    // Whether v is a write of the place that coherence does not put in an order with another one, or puts before itself.
    fn is_disordered(&self, place: usize, v: usize) -> bool
        ensures { result ≡ any (count (execution self.now.case.now)) (disordered (execution self.now.case.now) place v) }
    {
        is_write_at(self.case, v, place)
            && (0..self.case.count()).any(|w| self.is_clash(place, v, w))
    }

    // Whether w is a write of the place that v is not in order with.
    fn is_clash(&self, place: usize, v: usize, w: usize) -> bool
        ensures { result ≡ (writes (execution self.now.case.now) place w && unordered (execution self.now.case.now) v w) }
    {
        is_write_at(self.case, w, place) && self.is_unordered(v, w)
    }

    fn is_unordered(&self, v: usize, w: usize) -> bool
        ensures { result ≡ unordered (execution self.now.case.now) v w }
    {
        if v == w {
            self.order.has(v, v)
        } else {
            self.order.has(v, w) == self.order.has(w, v)
        }
    }
}
