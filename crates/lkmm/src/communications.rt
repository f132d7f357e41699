// How reads and writes follow one another: from-reads, communications, and these within or between threads.
#![tactic(auto, unfolding(crate::specs::Model::fr, crate::specs::Model::overwrite, crate::specs::Model::rfi, crate::specs::Model::com, crate::specs::Model::po_loc, crate::specs::Rules::per_place))]

ghost use Rattle.lkmm.specs.Model as model;
ghost use Rattle.lkmm.specs.Rules as rules;
ghost use Rattle.lkmm.specs.View.{Of};

use crate::parts::Parts;
use basis::Base;
use relations::Relation;

pub(crate) fn fr(b: &Base) -> Relation
    ensures { Of b.now model.fr result }
{
    b.rf.inverse().seq(&b.co)
}

pub(crate) fn rfi(b: &Base) -> Relation
    ensures { Of b.now model.rfi result }
{
    b.rf.inter(&b.int)
}

// A tie ends at events, so what is not within a thread is between threads.
pub(crate) fn rfe(b: &Base) -> Relation
    ensures { Of b.now model.rfe result }
{
    b.rf.diff(&b.int)
}

pub(crate) fn coe(b: &Base) -> Relation
    ensures { Of b.now model.«coe» result }
{
    b.co.diff(&b.int)
}

impl<'a> Parts<'a> {
    // What Scpv speaks of: program order at one place and communications.
    pub(crate) fn per_place(&self) -> Relation
        ensures { Of self.now.base.now rules.per_place result }
    {
        let b = self.base;
        b.po.inter(&b.loc).union(&b.rf.union(&self.overwrite))
    }

    pub(crate) fn fre(&self) -> Relation
        ensures { Of self.now.base.now model.fre result }
    {
        self.fr.diff(&self.base.int)
    }
}
