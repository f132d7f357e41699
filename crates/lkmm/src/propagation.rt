// Propagation, happens-before and propagates-before.
#![tactic(auto, unfolding(crate::specs::Model::cumul_fence, crate::specs::Model::pb))]

ghost use Rattle.lkmm.specs.Model as model;
ghost use Rattle.lkmm.specs.View.{Of};

use crate::parts::Parts;
use relations::Relation;

impl<'a> Parts<'a> {
    fn cumul_fence(&self) -> Relation
        ensures { Of self.now.base.now model.cumul_fence result }
    {
        self.rfe
            .opt()
            .seq(&self.strong.union(&self.po_rel))
            .union(&self.wmb)
    }

    pub(crate) fn prop(&self) -> Relation
        ensures { Of self.now.base.now model.prop result }
    {
        let fences = self.cumul_fence().star();
        self.overwrite
            .diff(&self.base.int)
            .opt()
            .seq(&fences.seq(&self.rfe.opt()))
    }

    pub(crate) fn hb(&self, prop: &Relation) -> Relation
        requires { Of self.now.base.now model.prop prop.now }
        ensures { Of self.now.base.now model.hb result }
    {
        let b = self.base;
        let itself = Relation::identity(b.po.events());
        prop.diff(&itself)
            .inter(&b.int)
            .union(&self.ppo().union(&self.rfe))
    }

    pub(crate) fn pb(&self, prop: &Relation, hb: &Relation) -> Relation
        requires of_prop { Of self.now.base.now model.prop prop.now }
        requires of_hb { Of self.now.base.now model.hb hb.now }
        ensures { Of self.now.base.now model.pb result }
    {
        prop.seq(&self.strong.seq(&hb.star()))
    }
}
