// One call of a run.
ghost use Rattle.std.specs.Prelude.{◌≡◌, ◌≤◌, length, MatchBool, nat_lt};
ghost use Rattle.sources.specs.Source.{bounded};
ghost use Rattle.tables.specs.Tables.{Exact, sealed_plain};
ghost use Rattle.rulings.specs.Rulings.{Judged, too_short};
ghost use Rattle.runs.specs.declared.kinds.Answer.TheVariants.{Refused as RefusedAnswer};
ghost use Rattle.runs.specs.declared.kinds.Call.TheVariants.{Seal as SealCall};
ghost use Rattle.runs.specs.declared.kinds.State.TheVariants.{Open as OpenState, Sealed as SealedState};
ghost use Rattle.runs.specs.Runs.{Step, OpenStep, SealedStep, RuledOn};
ghost use Rattle.runs.specs.States.{plain, tables_of, StillFormed};

use crate::kinds::{Answer, Call, State};
use crate::lent::Lent;
use executions::{Event, Fault};
use rulings::{Ruling, SheetRow, judge};
use tables::{OpenCase, SealedCase};

// The tables are the caller's, lent anew to each call, so they are passed beside the case.

// One call, whatever the state. Judge is handed a sheet of its own, so that its answer can hold it.
pub(crate) fn step(
    state: State,
    events: &mut [Event],
    ties: &mut [u64],
    call: Call,
) -> (State, Answer)
    requires still_formed { StillFormed state events.old ties.old }
    requires records { 64 ≤ length events.old }
    requires words { 384 ≤ length ties.old }
    ensures steps { Step (length events.old) (length ties.old) (plain state events.old ties.old) call result.1 (plain result.0 events.new ties.new) }
    ensures formed { StillFormed result.0 events.new ties.new }
    ensures exact { Exact (tables_of state events.old ties.old) → Exact (tables_of result.0 events.new ties.new) }
{
    match state {
        State::Open(case) => step_open(case, events, ties, call),
        State::Sealed(case) => step_sealed(case, events, ties, call),
    }
}

// One call on an open case. A match and no closures: the calls are a closed list of values, as a caller writes them down.
fn step_open(case: OpenCase, events: &mut [Event], ties: &mut [u64], call: Call) -> (State, Answer)
    requires { 64 ≤ length events.old }
    ensures steps { OpenStep (length events.old) (length ties.old) (plain (OpenState case) events.old ties.old) call result.1 (plain result.0 events.new ties.new) }
    ensures formed { StillFormed result.0 events.new ties.new }
    ensures exact { Exact (tables_of (OpenState case) events.old ties.old) → Exact (tables_of result.0 events.new ties.new) }
{
    match call {
        Call::Enter(event) => {
            let mut grown = case;
            let answer = Answer::from(grown.enter(events, ties, event));
            (State::Open(grown), answer)
        }
        Call::Tie(relation, first, second) => {
            let answer = Answer::from(case.tie(events, ties, relation, first, second));
            (State::Open(case), answer)
        }
        Call::Untie(relation, first, second) => {
            let answer = Answer::from(case.untie(events, ties, relation, first, second));
            (State::Open(case), answer)
        }
        Call::Seal => seal(case, events, ties),
        _ => (State::Open(case), Answer::OtherState),
    }
}

fn seal(case: OpenCase, events: &[Event], ties: &[u64]) -> (State, Answer)
    requires { 64 ≤ length events.now }
    ensures steps { OpenStep (length events.now) (length ties.now) (plain (OpenState case) events.now ties.now) SealCall result.1 (plain result.0 events.now ties.now) }
    ensures formed { StillFormed result.0 events.now ties.now }
    ensures exact { Exact (tables_of (OpenState case) events.now ties.now) → Exact (tables_of result.0 events.now ties.now) }
{
    match case.seal(events, ties) {
        Ok(sealed) => (State::Sealed(sealed), Answer::Done),
        Err((open, fault)) => (State::Open(open), Answer::Refused(fault)),
    }
}

// One call on a sealed case; no table changes.
fn step_sealed(case: SealedCase, events: &[Event], ties: &[u64], call: Call) -> (State, Answer)
    requires still_formed { StillFormed (SealedState case) events.now ties.now }
    requires records { 64 ≤ length events.now }
    requires words { 384 ≤ length ties.now }
    ensures steps { SealedStep (plain (SealedState case) events.now ties.now) call result.1 (plain result.0 events.now ties.now) }
    ensures formed { StillFormed result.0 events.now ties.now }
    ensures exact { Exact (tables_of (SealedState case) events.now ties.now) → Exact (tables_of result.0 events.now ties.now) }
{
    match call {
        Call::Reopen => (State::Open(case.reopen()), Answer::Done),
        Call::Judge(rows) => {
            let lent = Lent {
                case: &case,
                events,
                ties,
            };
            let answer = lent.judged(rows);
            (State::Sealed(case), answer)
        }
        _ => (State::Sealed(case), Answer::OtherState),
    }
}

impl<'a> Lent<'a> {
    // Judges the case on a sheet of so many rows.
    fn judged(&self, rows: usize) -> Answer
        ensures { MatchBool (nat_lt rows 64) (result ≡ RefusedAnswer too_short) (RuledOn (plain (SealedState self.now.case.now) self.now.events.now self.now.ties.now) result) }
    {
        let mut sheet = [SheetRow::BLANK; 64];
        match self.judge(&mut sheet[..rows.min(64)]) {
            Ok(ruling) => Answer::Ruled(ruling, sheet),
            Err(fault) => Answer::Refused(fault),
        }
    }

    // Judges the case on its tables.
    fn judge(&self, sheet: &mut [SheetRow]) -> Result<Ruling, Fault>
        ensures { Judged (bounded (sealed_plain self.now.case.now self.now.events.now self.now.ties.now).execution) sheet.old sheet.new result }
    {
        let Ok(source) = self.case.source(self.events, self.ties) else {
            unreachable()
        };
        judge(&source, sheet)
    }
}
