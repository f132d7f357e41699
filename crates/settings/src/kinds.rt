// What the grace-period law is asked about, in a file of its own for the sake of the ghost fields.
ghost use Rattle.std.specs.Prelude.{◌≡◌};
ghost use Rattle.relations.specs.Algebra.{inverse, opt};
ghost use Rattle.relations.specs.View.{rel, size};
ghost use Rattle.grace.specs.Scene.{Contains, gp};
ghost use Rattle.settings.specs.Parts.{scene_of, Same, Inside};

use relations::Relation;

// Program order, propagation order, happens-before, strong fences, critical sections (lock and unlock) and grace periods, on one number of
// events. Program order backwards, and with each event itself, are kept beside it: by these a period or a section is entered and left.
#[derive(Clone, Copy)]
pub struct Setting {
    pub(crate) po: Relation,
    pub(crate) prop: Relation,
    pub(crate) hb: Relation,
    pub(crate) strong: Relation,
    pub(crate) crit: Relation,
    pub(crate) periods: u64,
    pub(crate) back: Relation,
    pub(crate) ahead: Relation,
    ghost prop_alike: { size prop ≡ size po },
    ghost hb_alike: { size hb ≡ size po },
    ghost strong_alike: { size strong ≡ size po },
    ghost crit_alike: { size crit ≡ size po },
    ghost inside: { Inside (size po) periods },
    ghost fences: { Contains (rel strong) (gp (scene_of po prop hb strong crit periods)) },
    ghost backward: { Same (rel back) (inverse (rel po)) },
    ghost ahead_alike: { size ahead ≡ size po },
    ghost onward: { Same (rel ahead) (opt (size po) (rel po)) },
}
