// A setting from its parts, and the relations that the law is written in.
#![tactic(auto, using(crate::proofs::Settings::setting_sets), unfolding(crate::specs::Parts::scene_of))]

ghost use Rattle.std.specs.Prelude.{◌≡◌, ℕ, ◌≤◌, max, is_some, IfSome, Decides};
ghost use Rattle.rows.specs.Row.{bit};
ghost use Rattle.relations.specs.Algebra.{any, image, inverse, union};
ghost use Rattle.relations.specs.View.{rel, size};
ghost use Rattle.grace.specs.Scene.{Contains, gp, rscs, pb, link};
ghost use Rattle.grace.specs.Law.{before_unlock, from_on};
ghost use Rattle.grace.specs.Deciding.{before_period};
ghost use Rattle.settings.specs.Parts.{scene_of, Alike, Inside, Fit, covers};
ghost use Rattle.settings.specs.View.{scene};

use crate::kinds::Setting;
use crate::words::meets;
use relations::Relation;
use rows::{below, has};

impl Setting {
    // The setting of these parts; none where they do not fit together.
    pub fn new(
        po: Relation,
        prop: Relation,
        hb: Relation,
        strong: Relation,
        crit: Relation,
        periods: u64,
    ) -> Option<Setting>
        ensures fits { Decides (is_some result) (Fit po prop hb strong crit periods) }
        ensures same { IfSome result (λ x. scene x ≡ scene_of po prop hb strong crit periods) }
    {
        let ahead = po.opt();
        if alike(&po, &prop, &hb, &strong, &crit)
            && inside(po.events(), periods)
            && contains(&strong, &po.to(periods).seq(&ahead))
        {
            Some(Setting {
                po,
                prop,
                hb,
                strong,
                crit,
                periods,
                back: po.inverse(),
                ahead,
            })
        } else {
            None
        }
    }

    // From each event before a grace period to the period and all after it.
    pub fn gp(&self) -> Relation
        ensures pairs { rel result ≡ gp (scene self.now) }
        ensures events { size result ≡ (scene self.now).count }
    {
        self.po.to(self.periods).seq(&self.ahead)
    }

    // From each event before an unlock to the lock and all after it.
    pub fn rscs(&self) -> Relation
        ensures pairs { rel result ≡ rscs (scene self.now) }
        ensures events { size result ≡ (scene self.now).count }
    {
        self.po.seq(&self.crit.inverse().seq(&self.ahead))
    }

    // Propagates-before.
    pub fn pb(&self) -> Relation
        ensures pairs { rel result ≡ pb (scene self.now) (scene self.now).strong }
        ensures events { size result ≡ (scene self.now).count }
    {
        self.pb_by(&self.strong)
    }

    // Propagates-before where these pairs count as strong fences too.
    pub fn pb_with(&self, fences: &Relation) -> Relation
        ensures pairs { rel result ≡ pb (scene self.now) (union (scene self.now).strong (rel fences.now)) }
        ensures events { size result ≡ max (scene self.now).count (size fences.now) }
    {
        self.pb_by(&self.strong.union(fences))
    }

    // Propagates-before with these for the strong fences.
    fn pb_by(&self, fences: &Relation) -> Relation
        ensures pairs { rel result ≡ pb (scene self.now) (rel fences.now) }
        ensures events { size result ≡ max (scene self.now).count (size fences.now) }
    {
        self.prop.seq(&fences.seq(&self.hb.star()))
    }

    // How one period or section leads on to the next.
    pub fn link(&self) -> Relation
        ensures pairs { rel result ≡ link (scene self.now) (scene self.now).strong }
        ensures events { size result ≡ (scene self.now).count }
    {
        self.hb.star().seq(&self.pb().star().seq(&self.prop))
    }

    // How many events there are.
    pub fn events(&self) -> usize
        ensures { result ≡ (scene self.now).count }
    {
        self.po.events()
    }

    // The grace periods.
    pub fn periods(&self) -> u64
        ensures { bit result ≡ (scene self.now).period }
    {
        self.periods
    }

    // Whether s is a grace period.
    pub fn is_period(&self, s: usize) -> bool
        ensures { result ≡ (scene self.now).period s }
    {
        has(self.periods, s)
    }

    // Whether l is the lock of a section.
    pub fn is_lock(&self, l: usize) -> bool
        ensures { result ≡ any 64 ((scene self.now).crit l) }
    {
        self.crit.row(l) != 0
    }

    // The events before a grace period.
    pub fn before_period(&self, s: usize) -> u64
        ensures { bit result ≡ before_period (scene self.now) s }
    {
        if self.is_period(s) {
            self.back.row(s)
        } else {
            0
        }
    }

    // The events before the unlock of a section.
    pub fn before_unlock(&self, l: usize) -> u64
        ensures { bit result ≡ before_unlock (scene self.now) l }
    {
        self.back.image(self.crit.row(l))
    }

    // An event and all after it.
    pub fn from_on(&self, e: usize) -> u64
        ensures { bit result ≡ from_on (scene self.now) e }
    {
        self.ahead.row(e)
    }

    // The events of a set and all after them.
    pub fn from_any(&self, set: u64) -> u64
        ensures { bit result ≡ image (from_on (scene self.now)) (bit set) }
    {
        self.ahead.image(set)
    }

    // The events before some event of a set.
    pub fn before_any(&self, set: u64) -> u64
        ensures { bit result ≡ image (inverse (scene self.now).po) (bit set) }
    {
        self.back.image(set)
    }
}

// Whether all relations are on as many events.
fn alike(po: &Relation, prop: &Relation, hb: &Relation, strong: &Relation, crit: &Relation) -> bool
    ensures { Decides result (Alike po.now prop.now hb.now strong.now crit.now) }
{
    let n = po.events();
    prop.events() == n && hb.events() == n && strong.events() == n && crit.events() == n
}

// Whether every period is one of the first n events.
fn inside(n: usize, periods: u64) -> bool
    ensures { n ≤ 64 → Decides result (Inside n periods) }
{
    !meets(periods, !below(n))
}

// Whether the first relation has every pair of the other.
fn contains(r: &Relation, s: &Relation) -> bool
    ensures { Decides result (Contains (rel r.now) (rel s.now)) }
{
    (0..64).all(|a| covers(r, s, a))
}

// Whether it has those that begin at a.
fn covers(r: &Relation, s: &Relation, a: usize) -> bool
    ensures { result ≡ covers (rel r.now) (rel s.now) a }
{
    !meets(s.row(a), !r.row(a))
}
