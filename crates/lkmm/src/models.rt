// The model of a case, and its rules.
ghost use Rattle.std.specs.Prelude.{◌≡◌, Decides};
ghost use Rattle.basis.specs.Meaning.{basis};
ghost use Rattle.sources.specs.Snapshot.{execution};
ghost use Rattle.settings.specs.View.{scene as scene_of_setting};
ghost use Rattle.lkmm.specs.Rules.{Scpv, Hb, Pb, SameWords, scene as scene_of_model};
ghost use Rattle.lkmm.specs.Held.{held};

use crate::communications::{coe, fr, rfe, rfi};
use crate::fences::{po_rel, strong_fence, wmb};
use crate::kinds::Model;
use crate::parts::Parts;
use crate::preserved::dep;
use basis::Base;
use settings::Setting;
use sources::Snapshot;

impl Model {
    // The model of a case. Computed, so `of` and no From, which would read as a change of form.
    pub fn of(case: &Snapshot) -> Model
        ensures { held result ≡ basis (execution case.now) }
    {
        Parts::of(&Base::of(case)).model()
    }

    // Whether Scpv is kept: program order at one place and communications have no cycle.
    pub fn keeps_scpv(&self) -> bool
        ensures { Decides result (Scpv (held self.now)) }
    {
        self.per_place.acyclic()
    }

    // Whether Hb is kept: happens-before has no cycle.
    pub fn keeps_hb(&self) -> bool
        ensures { Decides result (Hb (held self.now)) }
    {
        self.hb.acyclic()
    }

    // Whether Pb is kept: propagates-before has no cycle.
    pub fn keeps_pb(&self) -> bool
        ensures { Decides result (Pb (held self.now)) }
    {
        self.pb.acyclic()
    }

    // What the grace-period law is asked about.
    pub fn setting(&self) -> Setting
        ensures same { scene_of_setting result ≡ scene_of_model (held self.now) }
        ensures words { SameWords (held self.now) }
    {
        let Some(setting) = Setting::new(
            self.base.po,
            self.prop,
            self.hb,
            self.strong,
            self.base.crit,
            self.base.periods,
        ) else {
            unreachable()
        };
        setting
    }
}

impl<'a> Parts<'a> {
    #[tactic(auto, unfolding(crate::specs::Model::overwrite))]
    fn of(base: &'a Base) -> Parts<'a>
        ensures { result.base.now ≡ base.now }
    {
        let fr = fr(base);
        Parts {
            base,
            fr,
            overwrite: base.co.union(&fr),
            rfi: rfi(base),
            rfe: rfe(base),
            dep: dep(base),
            strong: strong_fence(base),
            po_rel: po_rel(base),
            wmb: wmb(base),
        }
    }

    // The model over the basis.
    fn model(&self) -> Model
        ensures { result.base ≡ self.now.base.now }
    {
        let base = *self.base;
        let prop = self.prop();
        let hb = self.hb(&prop);
        Model {
            base,
            per_place: self.per_place(),
            fre: self.fre(),
            coe: coe(&base),
            strong: self.strong,
            prop,
            hb,
            pb: self.pb(&prop, &hb),
        }
    }
}
