// A sealed case with the two tables that are lent to it, in a file of its own for the sake of its ghost fields.
ghost use Rattle.std.specs.Prelude.{◌≡◌, ◌≤◌, length};
ghost use Rattle.std.proofs.Props.{props};
ghost use Rattle.runs.specs.declared.kinds.State.TheVariants.{Sealed as SealedState};
ghost use Rattle.runs.specs.States.{StillFormed};

use executions::Event;
use tables::SealedCase;

// It is well formed on them, and they are long enough to read it.
#[derive(Clone, Copy)]
pub(crate) struct Lent<'a> {
    pub(crate) case: &'a SealedCase,
    pub(crate) events: &'a [Event],
    pub(crate) ties: &'a [u64],
    ghost formed: { StillFormed (SealedState case.now) events.now ties.now } by { Prim.hlevel props },
    ghost records: { 64 ≤ length events.now },
    ghost words: { 384 ≤ length ties.now },
}
