// The two settings that are decided.
// The loops count events or threads: a relation takes pairs of their numbers, and no list is gone over.
ghost use Rattle.std.specs.Prelude.{ℕ, ◌<◌};

use relations::Relation;
use rows::with;
use settings::Setting;

const EVENTS: usize = 64;

// A setting whose strong fences are its grace periods.
fn with_periods(
    po: Relation,
    prop: Relation,
    hb: Relation,
    crit: Relation,
    periods: u64,
) -> Option<Setting> {
    let gp = po.to(periods).seq(&po.opt());
    Setting::new(po, prop, hb, gp, crit, periods)
}

// The crowd: 20 sections in two reader threads, 22 periods in two others.
pub(crate) fn crowd() -> Option<Setting> {
    with_periods(
        crowd_order(),
        forward(7, 3, 13),
        forward(5, 11, 17),
        crowd_sections(),
        crowd_periods(),
    )
}

fn crowd_sections() -> Relation {
    let mut crit = Relation::empty(EVENTS);
    for i in 0..20 {
        crit.add(2 * i, 2 * i + 1);
    }
    crit
}

// Every event of the last two threads but the first of each.
fn crowd_periods() -> u64 {
    (41..EVENTS)
        .filter(|e| *e != 52)
        .fold(0, |periods, e| with(periods, e))
}

// Events 0 to 19 and 20 to 39 are the readers, 40 to 51 and 52 to 63 the others.
fn crowd_thread(e: usize) -> usize {
    match e {
        0..20 => 0,
        20..40 => 1,
        40..52 => 2,
        _ => 3,
    }
}

// When an event takes place. No period falls between a lock and its unlock, so Rcu is kept where all links go forward.
fn crowd_time(e: usize) -> usize
    requires { e < 64 }
{
    match e {
        0..20 => e / 2 * 10 + e % 2,
        20..40 => (e - 20) / 2 * 10 + e % 2 + 2,
        40..52 => (e - 40) * 9 + 5,
        _ => (e - 52) * 9 + 8,
    }
}

// The pairs of events that are wanted.
fn pairs<F: Fn(usize, usize) -> bool>(wanted: F) -> Relation
    requires { (a b : ℕ) → a < 64 → b < 64 → F.pre wanted a b }
{
    let mut r = Relation::empty(EVENTS);
    for a in 0..EVENTS {
        for b in 0..EVENTS {
            if wanted(a, b) {
                r.add(a, b);
            }
        }
    }
    r
}

fn crowd_order() -> Relation {
    pairs(|a, b| a < b && crowd_thread(a) == crowd_thread(b))
}

// About one in `every` of the pairs that go forward in time.
fn forward(x: u16, y: u16, every: u16) -> Relation {
    pairs(|a, b| crowd_time(a) < crowd_time(b) && chosen(a as u16, b as u16, x, y, every))
}

fn chosen(a: u16, b: u16, x: u16, y: u16, every: u16) -> bool {
    every != 0 && a.wrapping_mul(x).wrapping_add(b.wrapping_mul(y)) % every == 0
}

// The ring: 32 threads of two events, sections and periods in turn, each leading to the next. Its only rounds go through all of them.
pub(crate) fn ring() -> Option<Setting> {
    let mut po = Relation::empty(EVENTS);
    let mut prop = Relation::empty(EVENTS);
    let mut crit = Relation::empty(EVENTS);
    let mut periods = 0;
    for t in 0..32 {
        po.add(2 * t, 2 * t + 1);
        prop.add(2 * t + 1, 2 * ((t + 1) % 32));
        if t % 2 == 0 {
            crit.add(2 * t, 2 * t + 1);
        } else {
            periods = with(periods, 2 * t + 1);
        }
    }
    with_periods(po, prop, Relation::empty(EVENTS), crit, periods)
}
