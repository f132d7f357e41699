// Program order with a fence between, or with a mark at one end.
#![tactic(auto, unfolding(crate::specs::Model::between, crate::specs::Model::mb, crate::specs::Model::rmb, crate::specs::Model::rb_dep, crate::specs::Model::wmb, crate::specs::Model::acq_po, crate::specs::Model::po_rel, crate::specs::Model::gp, crate::specs::Model::strong_fence, crate::specs::Model::fence))]

ghost use Rattle.rows.specs.Row.{bit};
ghost use Rattle.relations.specs.Algebra.{from, to};
ghost use Rattle.lkmm.specs.Model as model;
ghost use Rattle.lkmm.specs.View.{Of};

use crate::parts::Parts;
use basis::Base;
use relations::Relation;

// Pairs with an event of a set between.
pub(crate) fn between(b: &Base, set: u64) -> Relation
    ensures { Of b.now (model.between (bit set)) result }
{
    b.po.to(set).seq(&b.po)
}

// The same, of pairs that begin and end in one set.
fn fenced(b: &Base, set: u64, ends: u64) -> Relation
    ensures { Of b.now (λ x. from (bit ends) (to (model.between (bit set) x) (bit ends))) result }
{
    between(b, set).to(ends).from(ends)
}

pub(crate) fn rmb(b: &Base) -> Relation
    ensures { Of b.now model.rmb result }
{
    fenced(b, b.rmbs, b.reads)
}

pub(crate) fn rb_dep(b: &Base) -> Relation
    ensures { Of b.now model.rb_dep result }
{
    fenced(b, b.rb_deps, b.reads)
}

pub(crate) fn wmb(b: &Base) -> Relation
    ensures { Of b.now model.wmb result }
{
    fenced(b, b.wmbs, b.writes)
}

pub(crate) fn acq_po(b: &Base) -> Relation
    ensures { Of b.now model.acq_po result }
{
    b.po.from(b.acquires)
}

pub(crate) fn po_rel(b: &Base) -> Relation
    ensures { Of b.now model.po_rel result }
{
    b.po.to(b.releases)
}

// Grace-period order.
pub(crate) fn gp(b: &Base) -> Relation
    ensures { Of b.now model.gp result }
{
    b.po.to(b.periods).seq(&b.po.opt())
}

pub(crate) fn strong_fence(b: &Base) -> Relation
    ensures { Of b.now model.strong_fence result }
{
    between(b, b.mbs).union(&gp(b))
}

impl<'a> Parts<'a> {
    pub(crate) fn fence(&self) -> Relation
        ensures { Of self.now.base.now model.fence result }
    {
        let marked = rmb(self.base).union(&acq_po(self.base));
        self.strong
            .union(&self.po_rel.union(&self.wmb.union(&marked)))
    }
}
