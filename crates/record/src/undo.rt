// A record undone in place, and which ones cannot be undone.
ghost use Rattle.std.specs.Prelude.{◌≡◌, ◌++◌, ◌+◌, ◌≤◌, eqb, length, take, drop};
ghost use Rattle.notation.specs.Numbers.{from_big_endian, MIN-BITS};
ghost use Rattle.notation.specs.Invert.{exchanged as opposite};
ghost use Rattle.notation.specs.Packed.{RECORD, head_record, head_at, megaminx_number};
ghost use Rattle.notation.specs.declared.common.MegaminxScrambleMove.{MegaminxScrambleMove};
ghost use Rattle.record.specs.Kinds.{kind_number};
ghost use Rattle.record.specs.Undone.{StartsRecord, undone_head, overflows_at};

use crate::kinds::Kind;
use crate::{fields, layout};
use numbers::big_endian::read;
use numbers::signed::{MIN, negate};

// Undoes the first record of r: a step, or a group as a whole, whose multiplier is negated.
pub fn undo_record(r: &mut [u8])
    requires { StartsRecord r.old }
    ensures { r.new ≡ head_record (undone_head (head_at r.old)) ++ drop RECORD r.old }
{
    let kind = fields::kind(r);
    // A record without a multiplier has 0 there, which stays.
    let number = fields::number(r);
    let opposite = negate(number);
    fields::set_number(r, opposite);
    if kind == Kind::Pair {
        let other = fields::other(r);
        let opposite = negate(other);
        fields::set_other(r, opposite);
        return;
    }
    if kind.is_megaminx() {
        fields::set_small(r, exchanged(kind).number() * 16);
    }
}

// The kind of the opposite Megaminx move.
fn exchanged(kind: Kind) -> Kind
    ensures { (k : MegaminxScrambleMove) → kind_number kind ≡ megaminx_number k →
        kind_number result ≡ megaminx_number (opposite k) }
{
    match kind {
        Kind::RPlus => Kind::RMinus,
        Kind::RMinus => Kind::RPlus,
        Kind::DPlus => Kind::DMinus,
        _ => Kind::DPlus,
    }
}

// Whether the first record is a pair that has no opposite: one with −2147483648.
pub fn overflows(r: &[u8]) -> bool
    requires { RECORD ≤ length r.now }
    ensures { result ≡ overflows_at r.now }
{
    fields::kind(r) == Kind::Pair && (is_min(r, layout::NUMBER) || is_min(r, layout::OTHER))
}

// Whether the number in the four bytes from `at` on is −2147483648. Nearly always the first of them tells.
fn is_min(r: &[u8], at: usize) -> bool
    requires { at + 4 ≤ length r.now }
    ensures { result ≡ eqb (from_big_endian (take 4 (drop at r.now))) MIN-BITS }
{
    read::<1>(r, at) == 128 && read::<4>(r, at) == MIN as u64
}
