// The fields that a leaf does not use, which are 0. Fields that stand side by side are looked at together; to read all
// fields of a record and to compare each with what packing would write takes half as long again.
ghost use Rattle.std.specs.Prelude.{◌≡◌, ◌&&◌, ◌/◌, ◌%◌, ◌≤◌, eqb, length, take};
ghost use Rattle.notation.specs.Basics.{same_list};
ghost use Rattle.notation.specs.Packed.{RECORD, widths, cut, low_and_high, head_fields, head_at};
ghost use Rattle.record.specs.Meaning.{field, both_zero, layers_at, kind_at};
ghost use Rattle.record.specs.Meaning.{SMALL, NUMBER, OTHER, FAMILY, CONSTRAINTS, LAYER-SET, COUNT};
ghost use Rattle.record.specs.Unused.{family_written, constraints_written, parts_written, set_written};

use crate::decode::layers;
use crate::encode::low_and_high;
use crate::fields;
use crate::kinds::{Kind, LayerForm};

// Whether a leaf's record, which counts 1, is what packing writes of what it says.
pub fn leaf_written(t: &[u8]) -> bool
    requires in_bounds { RECORD ≤ length t.now }
    requires bound { 6 ≤ kind_at t.now }
    requires counts_one { field COUNT t.now ≡ 1 }
    ensures { result ≡ same_list (head_fields (head_at t.now)) (cut widths (take RECORD t.now)) }
{
    if !fields::no_lists(t) {
        return false;
    }
    match fields::kind(t) {
        Kind::Move => move_written(t),
        Kind::Rotation => rotation_written(t),
        Kind::Pair => kind_alone(t),
        Kind::Unused => false,
        _ => kind_alone(t) && no_numbers(t),
    }
}

// Whether nothing stands beside the kind but perhaps numbers.
fn kind_alone(t: &[u8]) -> bool
    requires { RECORD ≤ length t.now }
    ensures { result
        ≡ (eqb (field SMALL t.now % 16) 0 &&
        (both_zero FAMILY t.now && (both_zero CONSTRAINTS t.now && both_zero LAYER-SET t.now))) }
{
    fields::small(t) % 16 == 0
        && (fields::no_family(t) && (fields::no_constraints(t) && fields::no_layer_set(t)))
}

// Whether both numbers are 0.
fn no_numbers(t: &[u8]) -> bool
    requires { RECORD ≤ length t.now }
    ensures { result ≡ both_zero NUMBER t.now }
{
    fields::number(t) == 0 && fields::other(t) == 0
}

// Whether the fields that a move does not use are 0.
fn move_written(t: &[u8]) -> bool
    requires { RECORD ≤ length t.now }
    ensures { result
        ≡ (eqb (field OTHER t.now) (low_and_high (layers_at t.now)) &&
        (set_written t.now && parts_written t.now)) }
{
    fields::other(t) == low_and_high(layers(t)) && (set_written(t) && parts_written(t))
}

// Whether the fields that a rotation does not use are 0: it has no tilde and no layers.
fn rotation_written(t: &[u8]) -> bool
    requires { RECORD ≤ length t.now }
    ensures { result
        ≡ (eqb (field SMALL t.now / 2 % 8) 0 &&
        (eqb (field OTHER t.now) 0 && (both_zero LAYER-SET t.now && parts_written t.now))) }
{
    fields::small(t) / 2 % 8 == 0
        && (fields::other(t) == 0 && (fields::no_layer_set(t) && parts_written(t)))
}

// Whether there is no layer set but in the form of a set.
fn set_written(t: &[u8]) -> bool
    requires { RECORD ≤ length t.now }
    ensures { result ≡ set_written t.now }
{
    fields::layer_form(t) == LayerForm::Set || fields::no_layer_set(t)
}

// Whether an empty family stands at 0, and constraints that are not present are nowhere.
fn parts_written(t: &[u8]) -> bool
    requires { RECORD ≤ length t.now }
    ensures { result ≡ parts_written t.now }
{
    family_written(t) && constraints_written(t)
}

// Whether a family that is empty stands at 0.
fn family_written(t: &[u8]) -> bool
    requires { RECORD ≤ length t.now }
    ensures { result ≡ family_written t.now }
{
    let p = fields::family(t);
    p.size != 0 || p.offset == 0
}

// Whether constraints that are not present are nowhere.
fn constraints_written(t: &[u8]) -> bool
    requires { RECORD ≤ length t.now }
    ensures { result ≡ constraints_written t.now }
{
    fields::constraints_present(t) || fields::no_constraints(t)
}
