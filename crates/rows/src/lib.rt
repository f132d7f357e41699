// A row: a set of numbers below 64 in one 64-bit word, bit b set when b is in the set.
// A relation on at most 64 events is kept as one such row of targets for each event.
#![tactic(auto)]

ghost use Rattle.std.specs.Prelude.{◌≡◌, ℕ, ◌≤◌, false, MatchOption};
ghost use Rattle.std.specs.Iterator.{at_most};
ghost use Rattle.rows.specs.Row.{bit, adding, dropping, below, count, Lowest};
ghost use Rattle.rows.specs.Walk.{TakesLowest};

// Whether b is in the row; nothing past 63 is.
#[tactic(auto, using(crate::proofs::Bits::bit_outside), unfolding(crate::specs::Row::bit))]
pub fn has(row: u64, b: usize) -> bool
    ensures { result ≡ bit row b }
{
    b < 64 && (row >> b) % 2 == 1
}

// The row with b in it as well; a b past 63 changes nothing.
#[tactic(auto, using(crate::proofs::Bits::with_bit, crate::proofs::Bits::with_none))]
pub fn with(row: u64, b: usize) -> u64
    ensures { bit result ≡ adding b (bit row) }
{
    if b < 64 { row | (1 << b) } else { row }
}

// The row without b.
#[tactic(auto, using(crate::proofs::Bits::without_bit, crate::proofs::Bits::without_none))]
pub fn without(row: u64, b: usize) -> u64
    ensures { bit result ≡ dropping b (bit row) }
{
    if b < 64 { row & !(1 << b) } else { row }
}

// The numbers below n; all 64 where n is more.
#[tactic(auto, using(crate::proofs::Words::below_bits, crate::proofs::Words::below_all))]
pub fn below(n: usize) -> u64
    ensures { bit result ≡ below n }
{
    if n < 64 { (1 << n) - 1 } else { u64::MAX }
}

// The lowest number in the row, where there is one.
#[tactic(auto, using(crate::proofs::Words::lowest_is, crate::proofs::Bits::bit_zero))]
pub fn lowest(row: u64) -> Option<usize>
    ensures { MatchOption result ((x : ℕ) → bit row x ≡ false) (λ c. Lowest (bit row) c) }
{
    if row == 0 {
        None
    } else {
        Some(row.trailing_zeros() as usize)
    }
}

// How many numbers are in the row.
#[tactic(auto, using(crate::proofs::Words::ones_count))]
pub fn count(row: u64) -> usize
    ensures value { result ≡ count 64 (bit row) }
    ensures bound { result ≤ 64 }
{
    row.count_ones() as usize
}

// The numbers of a row, the lowest first.
#[derive(Clone, Copy)]
pub struct Walk {
    rest: u64,
}

// Walks the row: it gives each of its numbers once, in rising order.
pub fn members(row: u64) -> Walk
    ensures { result.rest ≡ row }
{
    Walk { rest: row }
}

impl Iterator for Walk {
    type Item = usize;

    ghost next_gives = { λ w r v. TakesLowest (bit w.rest) r (bit v.rest) };

    ghost remaining = { λ w. at_most (count 64 (bit w.rest)) };

    #[tactic(auto, using(crate::proofs::Words::fewer))]
    fn next(&mut self) -> Option<usize> {
        let first = lowest(self.rest)?;
        self.rest = without(self.rest, first);
        Some(first)
    }
}
