// The one public type of this crate, in a file of its own for the sake of its ghost fields.
ghost use Rattle.std.specs.Prelude.{◌≡◌, ℕ, ◌<◌, true};
ghost use Rattle.rows.specs.Row.{bit};
ghost use Rattle.relations.specs.View.{size};

use relations::Relation;

// The base relations of a case, all on its events, and its events by what they are, a row each.
#[derive(Clone, Copy)]
pub struct Base {
    pub po: Relation,
    pub int: Relation,
    pub loc: Relation,
    pub rf: Relation,
    pub co: Relation,
    pub addr: Relation,
    pub data: Relation,
    pub ctrl: Relation,
    pub rmw: Relation,
    pub crit: Relation,
    pub reads: u64,
    pub writes: u64,
    pub acquires: u64,
    pub releases: u64,
    pub rmbs: u64,
    pub wmbs: u64,
    pub mbs: u64,
    pub rb_deps: u64,
    pub periods: u64,
    ghost int_alike: { size int ≡ size po },
    ghost loc_alike: { size loc ≡ size po },
    ghost rf_alike: { size rf ≡ size po },
    ghost co_alike: { size co ≡ size po },
    ghost addr_alike: { size addr ≡ size po },
    ghost data_alike: { size «data» ≡ size po },
    ghost ctrl_alike: { size ctrl ≡ size po },
    ghost rmw_alike: { size rmw ≡ size po },
    ghost crit_alike: { size crit ≡ size po },
    ghost inside: { (s : ℕ) → bit periods s ≡ true → s < size po },
}
