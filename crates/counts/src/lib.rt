// Step counts as records store them: capped, so that a count above 4,294,967,295 is 4,294,967,296. Sums and products of
// capped counts are capped again. The pass that fills the counts in (crate `tally`) works by these functions, and refusal 6
// compares the stored ones with them.

#![tactic(auto)]

ghost use Rattle.std.specs.Prelude.{◌≡◌, ◌+◌, ◌^◌, ◌≤◌, ◌<◌};
ghost use Rattle.notation.specs.Numbers.{from_bits};
ghost use Rattle.notation.specs.Counts as rule;
ghost use Rattle.counts.specs.Groups.{contents as contents_of, group_count};

use numbers::signed::magnitude;
use record::Kind;

// What a count above 4,294,967,295 is stored as.
const CAP: u64 = 4294967296;

// The capped count of one list after another.
pub fn sum(a: u64, b: u64) -> u64
    requires { a + b < 2 ^ 64 }
    ensures { result ≡ rule.cap (a + b) }
{
    cap(a + b)
}

// The count of a group by those of its lists; a group that is not binary has one list. A NISS group counts 0.
pub fn of_group(kind: u8, multiplier: u32, a: u64, b: u64) -> u64
    requires { (a ≤ rule.CAP) × (b ≤ rule.CAP) }
    ensures { result ≡ group_count kind (from_bits 32 multiplier) a b }
{
    if kind == Kind::Niss.number() {
        return 0;
    }
    cap(magnitude(multiplier) as u64 * contents(kind, a, b))
}

// The count of a group's contents played once. Kinds follow each other in no order that the machine could guess, so they
// choose numbers and not ways.
fn contents(kind: u8, a: u64, b: u64) -> u64
    requires { (a ≤ rule.CAP) × (b ≤ rule.CAP) }
    ensures { result ≡ rule.cap (contents_of kind a b) }
{
    let (first, second) = times(kind);
    cap(first * a + second * b)
}

// How often each list is played: both twice in A B A' B', the first twice in A B A'.
fn times(kind: u8) -> (u64, u64)
    ensures first { (result.0 ≡ contents_of kind 1 0) × (result.0 ≤ 2) }
    ensures second { (result.1 ≡ contents_of kind 0 1) × (result.1 ≤ 2) }
{
    if kind == Kind::Commutator.number() {
        (2, 2)
    } else if kind == Kind::Conjugate.number() {
        (2, 1)
    } else {
        (1, 0)
    }
}

// Caps a sum or a product.
pub fn cap(n: u64) -> u64
    ensures { result ≡ rule.cap n }
{
    if n < CAP { n } else { CAP }
}
