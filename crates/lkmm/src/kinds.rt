// The model of a case, in a file of its own for the sake of its ghost fields.
ghost use Rattle.std.specs.Prelude.{◌≡◌};
ghost use Rattle.std.proofs.Props.{props};
ghost use Rattle.relations.specs.View.{rel, size};
ghost use Rattle.basis.specs.View.{basis_of};
ghost use Rattle.lkmm.specs.Model as model;
ghost use Rattle.lkmm.specs.Rules as rules;

use basis::Base;
use relations::Relation;

// The basis of a case with the relations that the rules speak of, each computed once.
#[derive(Clone, Copy)]
pub struct Model {
    pub base: Base,
    pub per_place: Relation,
    pub fre: Relation,
    pub coe: Relation,
    pub strong: Relation,
    pub prop: Relation,
    pub hb: Relation,
    pub pb: Relation,
    ghost per_place_is: { rel per_place ≡ rules.per_place (basis_of base) } by { Prim.hlevel props },
    ghost fre_is: { rel fre ≡ model.fre (basis_of base) } by { Prim.hlevel props },
    ghost coe_is: { rel «coe» ≡ model.«coe» (basis_of base) } by { Prim.hlevel props },
    ghost strong_is: { rel strong ≡ model.strong_fence (basis_of base) } by { Prim.hlevel props },
    ghost prop_is: { rel prop ≡ model.prop (basis_of base) } by { Prim.hlevel props },
    ghost hb_is: { rel hb ≡ model.hb (basis_of base) } by { Prim.hlevel props },
    ghost pb_is: { rel pb ≡ model.pb (basis_of base) } by { Prim.hlevel props },
    ghost per_place_alike: { size per_place ≡ size base.po },
    ghost strong_alike: { size strong ≡ size base.po },
    ghost prop_alike: { size prop ≡ size base.po },
    ghost hb_alike: { size hb ≡ size base.po },
    ghost pb_alike: { size pb ≡ size base.po },
}
