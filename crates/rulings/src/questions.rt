// A model with what the grace-period law is asked about it, in a file of its own for the sake of the ghost field.
ghost use Rattle.std.specs.Prelude.{◌≡◌};
ghost use Rattle.settings.specs.View.{scene as scene_of_setting};
ghost use Rattle.lkmm.specs.Held.{held};
ghost use Rattle.lkmm.specs.Rules.{scene as scene_of_model};
ghost use Rattle.std.proofs.Props.{props};

use lkmm::Model;
use settings::Setting;

#[derive(Clone, Copy)]
pub(crate) struct Question<'a> {
    pub(crate) model: &'a Model,
    pub(crate) setting: Setting,
    ghost same_scene: { scene_of_setting setting ≡ scene_of_model (held model.now) } by { Prim.hlevel props },
}

impl<'a> Question<'a> {
    // Computed, so `of` and no From, which would read as a change of form.
    pub(crate) fn of(model: &'a Model) -> Question<'a>
        ensures { result.model.now ≡ model.now }
    {
        Question {
            model,
            setting: model.setting(),
        }
    }
}
