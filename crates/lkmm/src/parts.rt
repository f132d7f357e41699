// The relations that several others are made of, in a file of its own for the sake of its ghost fields.
ghost use Rattle.std.specs.Prelude.{◌≡◌};
ghost use Rattle.std.proofs.Props.{props};
ghost use Rattle.relations.specs.View.{rel, size};
ghost use Rattle.basis.specs.View.{basis_of};
ghost use Rattle.lkmm.specs.Model as model;

use basis::Base;
use relations::Relation;

// Over one basis, each computed once.
#[derive(Clone, Copy)]
pub(crate) struct Parts<'a> {
    pub(crate) base: &'a Base,
    pub(crate) fr: Relation,
    pub(crate) overwrite: Relation,
    pub(crate) rfi: Relation,
    pub(crate) rfe: Relation,
    pub(crate) dep: Relation,
    pub(crate) strong: Relation,
    pub(crate) po_rel: Relation,
    pub(crate) wmb: Relation,
    ghost fr_is: { rel fr ≡ model.fr (basis_of base.now) } by { Prim.hlevel props },
    ghost fr_alike: { size fr ≡ size base.now.po },
    ghost overwrite_is: { rel overwrite ≡ model.overwrite (basis_of base.now) } by { Prim.hlevel props },
    ghost overwrite_alike: { size overwrite ≡ size base.now.po },
    ghost rfi_is: { rel rfi ≡ model.rfi (basis_of base.now) } by { Prim.hlevel props },
    ghost rfi_alike: { size rfi ≡ size base.now.po },
    ghost rfe_is: { rel rfe ≡ model.rfe (basis_of base.now) } by { Prim.hlevel props },
    ghost rfe_alike: { size rfe ≡ size base.now.po },
    ghost dep_is: { rel dep ≡ model.dep (basis_of base.now) } by { Prim.hlevel props },
    ghost dep_alike: { size dep ≡ size base.now.po },
    ghost strong_is: { rel strong ≡ model.strong_fence (basis_of base.now) } by { Prim.hlevel props },
    ghost strong_alike: { size strong ≡ size base.now.po },
    ghost po_rel_is: { rel po_rel ≡ model.po_rel (basis_of base.now) } by { Prim.hlevel props },
    ghost po_rel_alike: { size po_rel ≡ size base.now.po },
    ghost wmb_is: { rel wmb ≡ model.wmb (basis_of base.now) } by { Prim.hlevel props },
    ghost wmb_alike: { size wmb ≡ size base.now.po },
}
