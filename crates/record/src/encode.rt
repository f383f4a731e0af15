// Records by their fields: what each node packs into, written and compared.
ghost use Rattle.std.specs.Prelude.{◌≡◌, ◌++◌, ◌<◌, ◌≤◌, length, take, drop};
ghost use Rattle.notation.specs.Basics.{same_list};
ghost use Rattle.notation.specs.Numbers.{from_bits};
ghost use Rattle.notation.specs.Tree as tree;
ghost use Rattle.notation.specs.Packed as packed;
ghost use Rattle.record.specs.Kinds.{kind_number, form_number};
ghost use Rattle.record.specs.Meaning as meaning;

use crate::fields;
use crate::kinds::{Kind, LayerForm};
use crate::spanned::{LayerPrefixContents, Move, NOWHERE, Rotation, Span};
use notation::common::{BinaryGroupKind, GroupKind, MegaminxScrambleMove};

// The step count of a leaf.
pub const LEAF: u64 = 1;

// The fields of a record in order.
#[derive(Drop, PartialEq, Eq)]
pub struct Fields {
    // The kind, and of a move its tilde, layer form and whether it has constraints.
    pub small: u8,
    pub first: u32,
    pub second: u32,
    pub number: u32,
    pub other: u32,
    pub family: Span,
    pub constraints: Span,
    pub layer_set: Span,
    // How many steps the node unrolls into: of a leaf 1.
    pub count: u64,
}

// The fields of the first record of t as they stand.
pub fn fields_at(t: &[u8]) -> Fields
    requires { packed.RECORD ≤ length t.now }
    ensures { meaning.listed result ≡ packed.cut packed.widths (take packed.RECORD t.now) }
{
    Fields {
        small: fields::small(t),
        first: fields::first(t),
        second: fields::second(t),
        number: fields::number(t),
        other: fields::other(t),
        family: fields::family(t),
        constraints: fields::constraints(t),
        layer_set: fields::layer_set(t),
        count: fields::count(t),
    }
}

// Whether two records have the same fields but for the step count.
pub fn same_fields(a: Fields, b: Fields) -> bool
    ensures { result ≡ same_list (meaning.uncounted a) (meaning.uncounted b) }
{
    let counted = Fields {
        count: b.count,
        ..a
    };
    counted == b
}

// The fields of a group.
pub fn group_fields(kind: GroupKind, first: u32, multiplier: u32, count: u64) -> Fields
    ensures { meaning.listed result ≡ packed.head_fields (packed.group_head kind first (from_bits 32 multiplier) count) }
{
    without_parts(Kind::from(kind), first, 0, multiplier, 0, count)
}

// The fields of a binary group.
pub fn binary_group_fields(
    kind: BinaryGroupKind,
    first: u32,
    second: u32,
    multiplier: u32,
    count: u64,
) -> Fields
    ensures { meaning.listed result ≡ packed.head_fields (packed.binary_head kind first second (from_bits 32 multiplier) count) }
{
    without_parts(Kind::from(kind), first, second, multiplier, 0, count)
}

// The fields of a pause.
pub fn pause_fields() -> Fields
    ensures { meaning.listed result ≡ packed.head_fields (packed.leaf_head tree.pause) }
{
    without_parts(Kind::Pause, 0, 0, 0, 0, LEAF)
}

// The fields of a pair.
pub fn pair_fields(u: u32, d: u32) -> Fields
    ensures { meaning.listed result ≡ packed.head_fields (packed.leaf_head (tree.pair (from_bits 32 u) (from_bits 32 d))) }
{
    without_parts(Kind::Pair, 0, 0, u, d, LEAF)
}

// The fields of a slash.
pub fn slash_fields() -> Fields
    ensures { meaning.listed result ≡ packed.head_fields (packed.leaf_head tree.slash) }
{
    without_parts(Kind::Slash, 0, 0, 0, 0, LEAF)
}

// The fields of a Megaminx move.
pub fn megaminx_fields(k: MegaminxScrambleMove) -> Fields
    ensures { meaning.listed result ≡ packed.head_fields (packed.leaf_head (tree.megaminx k)) }
{
    without_parts(Kind::from(k), 0, 0, 0, 0, LEAF)
}

// The fields of a node that names no part of the text.
pub fn without_parts(
    kind: Kind,
    first: u32,
    second: u32,
    number: u32,
    other: u32,
    count: u64,
) -> Fields
    ensures { meaning.listed result
        ≡ packed.in_order (kind_number kind) 0 0 0 first second number other packed.nowhere packed.nowhere packed.nowhere count }
{
    Fields {
        small: kind.number() * 16,
        first,
        second,
        number,
        other,
        family: NOWHERE,
        constraints: NOWHERE,
        layer_set: NOWHERE,
        count,
    }
}

// The fields of a rotation.
pub fn rotation_fields(x: Rotation) -> Fields
    ensures { meaning.listed result ≡ packed.head_fields (packed.leaf_head (meaning.rotation_leaf x)) }
{
    Fields {
        small: Kind::Rotation.number() * 16 + x.constraints.is_some() as u8,
        first: 0,
        second: 0,
        number: x.multiplier,
        other: 0,
        family: x.family,
        constraints: x.constraints.unwrap_or(NOWHERE),
        layer_set: NOWHERE,
        count: LEAF,
    }
}

// The fields of a move.
pub fn move_fields(x: Move) -> Fields
    ensures { meaning.listed result ≡ packed.head_fields (packed.leaf_head (meaning.move_leaf x)) }
{
    Fields {
        small: Kind::Move.number() * 16
            + x.inverted as u8 * 8
            + layer_form(x.layers).number() * 2
            + x.constraints.is_some() as u8,
        first: 0,
        second: 0,
        number: x.multiplier,
        other: low_and_high(x.layers),
        family: x.family,
        constraints: x.constraints.unwrap_or(NOWHERE),
        layer_set: set_part(x.layers),
        count: LEAF,
    }
}

// The form of the layers.
fn layer_form(l: LayerPrefixContents) -> LayerForm
    ensures { form_number result ≡ packed.layer_form (meaning.layers l) }
{
    match l {
        LayerPrefixContents::None => LayerForm::None,
        LayerPrefixContents::Single(_) => LayerForm::Single,
        LayerPrefixContents::Range(_, _) => LayerForm::Range,
        LayerPrefixContents::Set(_) => LayerForm::Set,
    }
}

// The low and the high layer as one number. A single layer is its own low and high.
pub fn low_and_high(l: LayerPrefixContents) -> u32
    ensures { result ≡ packed.low_and_high (meaning.layers l) }
{
    match l {
        LayerPrefixContents::Single(i) => (i as u32) * 65536 + (i as u32),
        LayerPrefixContents::Range(i, j) => (i as u32) * 65536 + (j as u32),
        LayerPrefixContents::None | LayerPrefixContents::Set(_) => 0,
    }
}

// The part that a layer set has, or none.
fn set_part(l: LayerPrefixContents) -> Span
    ensures { meaning.span result ≡ packed.set_part (meaning.layers l) }
{
    match l {
        LayerPrefixContents::Set(p) => p,
        _ => NOWHERE,
    }
}

// Writes the fields over the first record of out.
pub fn put(out: &mut [u8], f: Fields)
    requires { packed.RECORD ≤ length out.old }
    ensures { out.new ≡ packed.lay_out packed.widths (meaning.listed f) ++ drop packed.RECORD out.old }
{
    fields::set_small(out, f.small);
    fields::set_lists(out, f.first, f.second);
    fields::set_number(out, f.number);
    fields::set_other(out, f.other);
    fields::set_family(out, f.family);
    fields::set_constraints(out, f.constraints);
    fields::set_layer_set(out, f.layer_set);
    fields::set_count(out, f.count);
}
