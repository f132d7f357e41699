// Preserved program order: what a thread keeps in order by dependencies, overwriting and fences.
#![tactic(auto, unfolding(crate::specs::Model::dep, crate::specs::Model::to_w, crate::specs::Model::rrdep, crate::specs::Model::strong_rrdep, crate::specs::Model::rfi_rel_acq, crate::specs::Model::to_r))]

ghost use Rattle.relations.specs.Algebra.{plus};
ghost use Rattle.lkmm.specs.Model as model;
ghost use Rattle.lkmm.specs.View.{Of};

use crate::fences::rb_dep;
use crate::parts::Parts;
use basis::Base;
use relations::Relation;

pub(crate) fn dep(b: &Base) -> Relation
    ensures { Of b.now model.dep result }
{
    b.addr.union(&b.data)
}

impl<'a> Parts<'a> {
    fn rwdep(&self) -> Relation
        ensures { Of self.now.base.now model.rwdep result }
    {
        let b = self.base;
        self.dep.union(&b.ctrl).from(b.reads).to(b.writes)
    }

    fn to_w(&self) -> Relation
        ensures { Of self.now.base.now model.to_w result }
    {
        self.rwdep().union(&self.overwrite.inter(&self.base.int))
    }

    fn rrdep(&self) -> Relation
        ensures { Of self.now.base.now model.rrdep result }
    {
        self.base.addr.union(&self.dep.seq(&self.rfi))
    }

    // The closure of rrdep is handed in, since ppo begins with it too.
    fn to_r(&self, chains: &Relation) -> Relation
        requires { Of self.now.base.now (λ x. plus (model.rrdep x)) chains.now }
        ensures { Of self.now.base.now model.to_r result }
    {
        let b = self.base;
        let marked = self.rfi.to(b.acquires).from(b.releases);
        chains.inter(&rb_dep(b)).union(&marked)
    }

    pub(crate) fn ppo(&self) -> Relation
        ensures { Of self.now.base.now model.ppo result }
    {
        let chains = self.rrdep().plus();
        let last = self.to_r(&chains).union(&self.to_w().union(&self.fence()));
        chains.opt().seq(&last)
    }
}
