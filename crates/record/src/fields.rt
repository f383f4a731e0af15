// The fields of the first record of a slice, read and written one by one. Only here is it looked up where a field stands.
// Each field has functions of its own: its type and its clause go by the field, so that one function with the field as a
// parameter would need a cast and a case for each of them.
ghost use Rattle.std.specs.Prelude.{◌≡◌, ◌+◌, ◌/◌, ◌%◌, ◌≤◌, length, take, drop, ◌&&◌, eqb, ltb};
ghost use Rattle.std.proofs.lemmas.List.Edits.{sets};
ghost use Rattle.notation.specs.Numbers.{big_endian, from_big_endian};
ghost use Rattle.notation.specs.Tree as tree;
ghost use Rattle.notation.specs.Packed.{RECORD};
ghost use Rattle.record.specs.Kinds.{kind_number, form_number};
ghost use Rattle.record.specs.Range.{FitsSpan};
ghost use Rattle.record.specs.Meaning.{field, both_zero, place_width, span_at, span, with_field, with_lists, with_span};
ghost use Rattle.record.specs.Meaning.{kind_at, tilde_at, form_at, present_at};
ghost use Rattle.record.specs.Meaning.{SMALL, FIRST, SECOND, NUMBER, OTHER, FAMILY, CONSTRAINTS, LAYER-SET, COUNT};

use crate::kinds::{Kind, LayerForm};
use crate::layout::{self, COUNT_BYTES, LIST_BYTES, NUMBER_BYTES, PLACE_BYTES};
use crate::spanned::Span;
use numbers::big_endian::{read, write};

// The kind, and of a move its tilde, layer form and whether it has constraints.
pub fn small(t: &[u8]) -> u8
    requires { RECORD ≤ length t.now }
    ensures { result ≡ field SMALL t.now }
{
    read::<1>(t, layout::SMALL) as u8
}

// Which node it is: the first four bits.
pub fn kind(t: &[u8]) -> Kind
    requires { RECORD ≤ length t.now }
    ensures { kind_number result ≡ kind_at t.now }
{
    Kind::of_number(small(t) / 16)
}

// Whether it is a leaf, which is no group.
pub fn is_leaf(t: &[u8]) -> bool
    requires { RECORD ≤ length t.now }
    ensures { result ≡ ltb 5 (kind_at t.now) }
{
    kind(t).is_leaf()
}

// Whether it is a group, plain or binary.
pub fn is_group(t: &[u8]) -> bool
    requires { RECORD ≤ length t.now }
    ensures { result ≡ ltb (kind_at t.now) 6 }
{
    kind(t).is_group()
}

// Whether a move has a tilde.
pub fn tilde(t: &[u8]) -> bool
    requires { RECORD ≤ length t.now }
    ensures { result ≡ tilde_at t.now }
{
    small(t) / 8 % 2 == 1
}

// The form of its layers.
pub fn layer_form(t: &[u8]) -> LayerForm
    requires { RECORD ≤ length t.now }
    ensures { form_number result ≡ form_at t.now }
{
    LayerForm::of_number(small(t) / 2 % 4)
}

// Whether it has constraints.
pub fn constraints_present(t: &[u8]) -> bool
    requires { RECORD ≤ length t.now }
    ensures { result ≡ present_at t.now }
{
    small(t) % 2 == 1
}

// Records in the first list, nested ones included.
pub fn first(t: &[u8]) -> u32
    requires { RECORD ≤ length t.now }
    ensures { result ≡ field FIRST t.now }
{
    read::<LIST_BYTES>(t, layout::FIRST) as u32
}

// Records in the second list.
pub fn second(t: &[u8]) -> u32
    requires { RECORD ≤ length t.now }
    ensures { result ≡ field SECOND t.now }
{
    read::<LIST_BYTES>(t, layout::SECOND) as u32
}

// The multiplier, or u of a pair.
pub fn number(t: &[u8]) -> u32
    requires { RECORD ≤ length t.now }
    ensures { result ≡ field NUMBER t.now }
{
    read::<NUMBER_BYTES>(t, layout::NUMBER) as u32
}

// d of a pair, or low and high layer.
pub fn other(t: &[u8]) -> u32
    requires { RECORD ≤ length t.now }
    ensures { result ≡ field OTHER t.now }
{
    read::<NUMBER_BYTES>(t, layout::OTHER) as u32
}

// The span whose offset and size stand from `at` on: three bytes each, which the machine takes as four and two.
fn span_at(t: &[u8], at: usize) -> Span
    requires { at + (place_width + place_width) ≤ length t.now }
    ensures result_value { span result
        ≡ tree.span (from_big_endian (take place_width (drop at t.now)))
        (from_big_endian (take place_width (drop (at + place_width) t.now))) }
    ensures fits_span { FitsSpan (span result) }
{
    let head = read::<4>(t, at);
    let tail = read::<2>(t, at + 4);
    Span {
        offset: (head / 256) as u32,
        size: (head % 256 * 65536 + tail) as u32,
    }
}

// The part of the text that is the family.
pub fn family(t: &[u8]) -> Span
    requires { RECORD ≤ length t.now }
    ensures result_value { span result ≡ span_at FAMILY t.now }
    ensures fits_span { FitsSpan (span result) }
{
    span_at(t, layout::FAMILY)
}

// The part of the text that the constraints have. It is meant only where they are present.
pub fn constraints(t: &[u8]) -> Span
    requires { RECORD ≤ length t.now }
    ensures result_value { span result ≡ span_at CONSTRAINTS t.now }
    ensures fits_span { FitsSpan (span result) }
{
    span_at(t, layout::CONSTRAINTS)
}

// The part of the text that the layer set has. It is meant only where the form is a set.
pub fn layer_set(t: &[u8]) -> Span
    requires { RECORD ≤ length t.now }
    ensures result_value { span result ≡ span_at LAYER-SET t.now }
    ensures fits_span { FitsSpan (span result) }
{
    span_at(t, layout::LAYER_SET)
}

// How many steps the node unrolls into, its repeats included.
pub fn count(t: &[u8]) -> u64
    requires { RECORD ≤ length t.now }
    ensures { result ≡ field COUNT t.now }
{
    read::<COUNT_BYTES>(t, layout::COUNT)
}

// Whether the step count is 1, as a leaf's is. Two parts of the field tell it, which is quicker than to put five bytes
// together; and to ask whether four bytes are 0 they need not be put in order.
pub fn counts_one(t: &[u8]) -> bool
    requires { RECORD ≤ length t.now }
    ensures { result ≡ eqb (field COUNT t.now) 1 }
{
    read::<4>(t, layout::COUNT) == 0 && read::<1>(t, layout::COUNT + 4) == 1
}

// Whether both fields from `at` on, of three bytes each, are 0. To read the part of the text and to compare it with the
// empty one takes twice as many instructions.
fn both_zero(t: &[u8], at: usize) -> bool
    requires { at + (place_width + place_width) ≤ length t.now }
    ensures { result
        ≡ (eqb (from_big_endian (take place_width (drop at t.now))) 0 && eqb
        (from_big_endian (take place_width (drop (at + place_width) t.now))) 0) }
{
    read::<4>(t, at) == 0 && read::<2>(t, at + 4) == 0
}

// Whether both lists have no records.
pub fn no_lists(t: &[u8]) -> bool
    requires { RECORD ≤ length t.now }
    ensures { result ≡ both_zero FIRST t.now }
{
    both_zero(t, layout::FIRST)
}

// Whether the family is nowhere.
pub fn no_family(t: &[u8]) -> bool
    requires { RECORD ≤ length t.now }
    ensures { result ≡ both_zero FAMILY t.now }
{
    both_zero(t, layout::FAMILY)
}

// Whether the constraints are nowhere.
pub fn no_constraints(t: &[u8]) -> bool
    requires { RECORD ≤ length t.now }
    ensures { result ≡ both_zero CONSTRAINTS t.now }
{
    both_zero(t, layout::CONSTRAINTS)
}

// Whether the layer set is nowhere.
pub fn no_layer_set(t: &[u8]) -> bool
    requires { RECORD ≤ length t.now }
    ensures { result ≡ both_zero LAYER-SET t.now }
{
    both_zero(t, layout::LAYER_SET)
}

// Writes the kind with what a move adds to it.
pub fn set_small(out: &mut [u8], n: u8)
    requires { RECORD ≤ length out.old }
    ensures { out.new ≡ with_field SMALL n out.old }
{
    write::<1>(out, layout::SMALL, n as u64);
}

// Writes how many records each list has.
pub fn set_lists(out: &mut [u8], first: u32, second: u32)
    requires { RECORD ≤ length out.old }
    ensures { out.new ≡ with_lists first second out.old }
{
    write::<LIST_BYTES>(out, layout::FIRST, first as u64);
    write::<LIST_BYTES>(out, layout::SECOND, second as u64);
}

// Writes the multiplier, or u of a pair.
pub fn set_number(out: &mut [u8], n: u32)
    requires { RECORD ≤ length out.old }
    ensures { out.new ≡ with_field NUMBER n out.old }
{
    write::<NUMBER_BYTES>(out, layout::NUMBER, n as u64);
}

// Writes d of a pair, or low and high layer.
pub fn set_other(out: &mut [u8], n: u32)
    requires { RECORD ≤ length out.old }
    ensures { out.new ≡ with_field OTHER n out.old }
{
    write::<NUMBER_BYTES>(out, layout::OTHER, n as u64);
}

// Writes a span from `at` on.
fn set_span(out: &mut [u8], at: usize, p: Span)
    requires { at + (place_width + place_width) ≤ length out.old }
    ensures { out.new
        ≡ sets (sets out.old at (big_endian place_width p.offset)) (at + place_width) (big_endian place_width p.size) }
{
    write::<PLACE_BYTES>(out, at, p.offset as u64);
    write::<PLACE_BYTES>(out, at + PLACE_BYTES, p.size as u64);
}

// Writes the family.
pub fn set_family(out: &mut [u8], p: Span)
    requires { RECORD ≤ length out.old }
    ensures { out.new ≡ with_span FAMILY p out.old }
{
    set_span(out, layout::FAMILY, p);
}

// Writes the constraints.
pub fn set_constraints(out: &mut [u8], p: Span)
    requires { RECORD ≤ length out.old }
    ensures { out.new ≡ with_span CONSTRAINTS p out.old }
{
    set_span(out, layout::CONSTRAINTS, p);
}

// Writes the layer set.
pub fn set_layer_set(out: &mut [u8], p: Span)
    requires { RECORD ≤ length out.old }
    ensures { out.new ≡ with_span LAYER-SET p out.old }
{
    set_span(out, layout::LAYER_SET, p);
}

// Writes the step count.
pub fn set_count(out: &mut [u8], n: u64)
    requires { RECORD ≤ length out.old }
    ensures { out.new ≡ with_field COUNT n out.old }
{
    write::<COUNT_BYTES>(out, layout::COUNT, n);
}
