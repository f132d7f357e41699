// An order of the events of an acyclic relation.
ghost use Rattle.std.specs.Prelude.{◌≡◌, ℕ, ◌<◌, ◌≤◌, length, is_some, IfSome, Decides, slice_index};
ghost use Rattle.relations.specs.Chains.{Acyclic};
ghost use Rattle.relations.specs.View.{rel, size};
ghost use Rattle.searches.specs.Keys.{key, rank};
ghost use Rattle.searches.specs.Places.{IsOrder};
ghost use Rattle.searches.specs.View.{place};

use crate::cycles::lowest_loop;
use crate::kinds::Order;
use relations::Relation;
use rows::count;

// A place for each event, rising along the relation; none where the relation has a cycle.
pub fn order(x: &Relation) -> Option<Order>
    ensures none { Decides (is_some result) (Acyclic (rel x.now)) }
    ensures found { IfSome result (λ o. IsOrder (rel x.now) (size x.now) (place o)) }
{
    let closure = x.plus();
    if lowest_loop(&closure).is_some() {
        return None;
    }
    let all = keys(&closure.inverse());
    let keys = &all[..x.events()];
    let mut places = [0; 64];
    for (a, key) in keys.iter().enumerate() {
        places[a] = rank(keys, *key);
    }
    Some(Order { places })
}

// The keys of all events. An event has a larger key than those before it, and no two have the same.
fn keys(before: &Relation) -> [u16; 64]
    ensures { (a : ℕ) → a < size before.now → slice_index result a ≡ key (rel before.now) a }
{
    let mut keys = [0; 64];
    for (a, key) in keys[..before.events()].iter_mut().enumerate() {
        *key = (count(before.row(a)) * 64 + a) as u16;
    }
    keys
}

// How many of the keys are below a key.
fn rank(keys: &[u16], key: u16) -> u8
    requires { length keys.now ≤ 64 }
    ensures { result ≡ rank (length keys.now) (λ b. slice_index keys.now b) key }
{
    // Counted in a byte: `filter(..).count()` counts in a usize, which makes an order of 64 events cost three fifths more.
    let mut below = 0;
    for other in keys {
        if *other < key {
            below += 1;
        }
    }
    below
}
