// The first refusal that unrolling meets, 7 or 8, in each direction: what the visit of a list adds up beside its steps.
ghost use Rattle.std.specs.Prelude.{◌≡◌, Bool, true, ◌≤◌, length};
ghost use Rattle.std.proofs.Math.Option.{none};
ghost use Rattle.notation.specs.Numbers.{from_bits};
ghost use Rattle.notation.specs.Packed.{RECORD};
ghost use Rattle.notation.specs.Unroll.{turned as turned_by};
ghost use Rattle.record.specs.Meaning.{field, NUMBER};
ghost use Rattle.laws.specs.Unrolled as unrolling;
ghost use Rattle.well_formed.specs.Refusing.{refuses, leaf_refuses, contents_refuse, group_refuses};

use notation::refusals::Refusal;
use numbers::signed::is_negative;
use record::{Kind, fields};

#[derive(Clone, Copy, Debug, PartialEq, Eq)]
pub struct Refusals {
    // The first that unrolling meets, if any.
    pub forward: Option<Refusal>,
    // The first that unrolling the inverse meets.
    pub backward: Option<Refusal>,
}

pub const NONE: Refusals = Refusals {
    forward: None,
    backward: None,
};

// The refusals of one list after another: backward, the second comes first.
pub fn join(a: Refusals, b: Refusals) -> Refusals
    ensures { refuses result ≡ (λ (d : Bool). unrolling.first_in_order d (refuses a d) (refuses b d)) }
{
    Refusals {
        forward: a.forward.or(b.forward),
        backward: b.backward.or(a.backward),
    }
}

// The refusals of a list and then a leaf: only a leaf that overflows causes any, and only where it is to be undone.
pub fn join_leaf(a: Refusals, overflows: bool) -> Refusals
    ensures { refuses result
        ≡ (λ (d : Bool). unrolling.first_in_order d (refuses a d) (leaf_refuses overflows d)) }
{
    Refusals {
        forward: a.forward,
        backward: if overflows {
            Some(Refusal::Overflow)
        } else {
            a.backward
        },
    }
}

// The refusals of a group of this kind, given its record, by those of its lists; a group that is not binary has one list. A
// NISS group is refused even at multiplier 0; what is repeated 0 times is never reached.
pub fn of_group(kind: u8, group: &[u8], a: Refusals, b: Refusals) -> Refusals
    requires { RECORD ≤ length group.now }
    ensures { refuses result ≡ group_refuses kind (from_bits 32 (field NUMBER group.now)) (refuses a) (refuses b) }
{
    if kind == Kind::Niss.number() {
        return Refusals {
            forward: Some(Refusal::Niss),
            backward: Some(Refusal::Niss),
        };
    }
    // Most groups meet nothing, and then their multiplier need not be read.
    if both_none(a, b) {
        return NONE;
    }
    let multiplier = fields::number(group);
    if multiplier == 0 {
        return NONE;
    }
    turned(multiplier, contents(kind, a, b))
}

// Whether nothing is met in either list.
fn both_none(a: Refusals, b: Refusals) -> bool
    ensures { result ≡ true → (refuses a ≡ (λ (d : Bool). none)) × (refuses b ≡ (λ (d : Bool). none)) }
{
    a.forward.is_none() && a.backward.is_none() && b.forward.is_none() && b.backward.is_none()
}

// The refusals of a group's contents, played once and forward or once and inverted.
fn contents(kind: u8, a: Refusals, b: Refusals) -> Refusals
    ensures { refuses result ≡ contents_refuse kind (refuses a) (refuses b) }
{
    if kind == Kind::Commutator.number() {
        Refusals {
            forward: a.forward.or(b.forward.or(a.backward.or(b.backward))),
            backward: b.forward.or(a.forward.or(b.backward.or(a.backward))),
        }
    } else if kind == Kind::Conjugate.number() {
        Refusals {
            forward: a.forward.or(b.forward.or(a.backward)),
            backward: a.forward.or(b.backward.or(a.backward)),
        }
    } else {
        a
    }
}

// A negative multiplier turns them round.
fn turned(multiplier: u32, inside: Refusals) -> Refusals
    ensures { refuses result ≡ (λ (d : Bool). refuses inside (turned_by (from_bits 32 multiplier) d)) }
{
    if is_negative(multiplier) {
        return Refusals {
            forward: inside.backward,
            backward: inside.forward,
        };
    }
    inside
}
