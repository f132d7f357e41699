// The parts of a line: fields that one space parts, decimal numbers, and words.
ghost use Rattle.std.specs.Prelude.{◌≡◌, ◌&&◌, length, Some, None, MatchOption, ◌==◌, nat_lt, slice_index, position};
ghost use Rattle.std.specs.Str.{bytes_eq};
ghost use Rattle.caselines.specs.Fields.{cut as cut_at, number_of};

// What stands before the first byte `stop`, and what stands after it; None where there is no such byte.
pub fn cut(bytes: &[u8], stop: u8) -> Option<(&[u8], &[u8])>
    ensures { MatchOption result (cut_at stop bytes.now ≡ None) (λ p. cut_at stop bytes.now ≡ Some (p.0.now, p.1.now)) }
{
    let end = first(bytes, stop)?;
    Some((&bytes[..end], &bytes[end + 1..]))
}

// Where a byte stands first.
fn first(bytes: &[u8], sought: u8) -> Option<usize>
    ensures { result ≡ position (λ b. b == sought) bytes.now }
{
    bytes.iter().position(|byte| *byte == sought)
}

// Whether two texts have the same bytes.
pub fn same(a: &[u8], b: &[u8]) -> bool
    ensures { result ≡ bytes_eq a.now b.now }
{
    a == b
}

// How many digits a number may have.
const LONGEST: usize = 5;

// The number that a field writes: one to five digits with no leading zero.
pub fn number(field: &[u8]) -> Option<u32>
    ensures { result ≡ number_of field.now }
{
    if field.is_empty() || field.len() > LONGEST || leads_with_zero(field) {
        return None;
    }
    let mut n = 0u32;
    for digit in field {
        if !digit.is_ascii_digit() {
            return None;
        }
        n = 10 * n + u32::from(digit - b'0');
    }
    Some(n)
}

// Whether a zero stands before other digits.
fn leads_with_zero(field: &[u8]) -> bool
    ensures { result ≡ (nat_lt 1 (length field.now) && slice_index field.now 0 == 48) }
{
    field.len() > 1 && field[0] == b'0'
}
