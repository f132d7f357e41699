// A word as a set of events.
ghost use Rattle.std.specs.Prelude.{◌≡◌, ◌&&◌};
ghost use Rattle.rows.specs.Row.{bit};
ghost use Rattle.relations.specs.Algebra.{any};

// Whether two sets have an event in common.
pub fn meets(v: u64, w: u64) -> bool
    ensures { result ≡ any 64 (λ c. bit v c && bit w c) }
{
    v & w != 0
}
