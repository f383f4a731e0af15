// Decimal numbers in a text, with the bounds of their type: `uint` and `sint` of the Rust's parse.rs.
ghost use Rattle.std.specs.Prelude.{◌≡◌, ℕ, ◌+◌, ◌*◌, ◌<◌, ◌≤◌, min, length, take, drop, pos, neg_ℤ};
ghost use Rattle.notation.specs.Numbers.{digit_run, decimal, from_bits};
ghost use Rattle.notation.specs.Grammar as rule;
ghost use Rattle.parsed.specs.Reading.{reading};

use crate::signed::negate;
use parsed::Parsed;

// Past every bound of a 32-bit number: larger ones need not be told apart.
const CAP: u64 = 0x1_0000_0000;

// One more digit after those that gave `n`.
fn next_value(n: u64, digit: u64) -> u64
    requires { (n ≤ 4294967296) × (digit ≤ 9) }
    ensures { result ≡ min (n * 10 + digit) 4294967296 }
{
    (n * 10 + digit).min(CAP)
}

// The digits from `at` on: their number, capped at `CAP`, and where they end.
fn digits(s: &[u8], at: usize) -> Parsed<u64>
    requires { at ≤ length s.now }
    ensures { (result.next ≡ at + digit_run (drop at s.now))
        × (result.value ≡ min (decimal 0 (take (digit_run (drop at s.now)) (drop at s.now))) 4294967296) }
{
    let mut value = 0;
    for (i, &b) in s[at..].iter().enumerate() {
        if !b.is_ascii_digit() {
            return Parsed {
                value,
                next: at + i,
            };
        }
        value = next_value(value, (b - b'0') as u64);
    }
    Parsed {
        value,
        next: s.len(),
    }
}

// At least one digit, leading zeros pass; a number below `low` or above `high` is none.
pub fn uint(s: &[u8], at: usize, low: u32, high: u32) -> Option<Parsed<u32>>
    requires { at ≤ length s.now }
    ensures { reading (λ n. n) s.now result ≡ rule.uint low high at (drop at s.now) }
{
    let found = digits(s, at);
    if found.next == at {
        return None;
    }
    if found.value < (low as u64) {
        return None;
    }
    if (high as u64) < found.value {
        return None;
    }
    Some(Parsed {
        value: found.value as u32,
        next: found.next,
    })
}

// The 32 bits of the number after the `-` at `at`.
fn negative(s: &[u8], at: usize, low: u32, high: u32) -> Option<Parsed<u32>>
    requires { (at < length s.now) × (high ≤ 2147483648) }
    ensures { reading (from_bits 32) s.now result
        ≡ rule.and_then (rule.uint low high (at + 1) (drop (at + 1) s.now)) (λ n. rule.done (neg_ℤ (pos n))) }
{
    let number = uint(s, at + 1, low, high)?;
    Some(Parsed {
        value: negate(number.value),
        next: number.next,
    })
}

// The 32 bits of a number with `-` or without, and a bound for each.
pub fn sint(s: &[u8], at: usize, low: u32, high: u32, high_negative: u32) -> Option<Parsed<u32>>
    requires { (at ≤ length s.now) × (high < 2147483648) × (high_negative ≤ 2147483648) }
    ensures { reading (from_bits 32) s.now result ≡ rule.sint low high high_negative at (drop at s.now) }
{
    if at < s.len() {
        if s[at] == b'-' {
            return negative(s, at, low, high_negative);
        }
    }
    uint(s, at, low, high)
}
