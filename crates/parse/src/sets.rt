// Sets in braces, of layers and of constraints: the rules of the Rust's parse.rs for them.
ghost use Rattle.std.specs.Prelude.{◌≡◌, ◌≤◌, ◌<◌, length, drop, IfSome};
ghost use Rattle.notation.specs.Numbers.{from_bits};
ghost use Rattle.notation.specs.Utf8.{byte_at};
ghost use Rattle.notation.specs.Grammar as rule;
ghost use Rattle.notation.specs.Grammar.{Reader};
ghost use Rattle.parsed.specs.Reading.{taken, reading};
ghost use Rattle.parse.specs.Meaning as means;

use crate::look::{has, has_two};
use crate::parts::{LayerSetElement, MAX_LAYER};
use charsets::{family_end, whitespace_end};
use numbers::decimal::{sint, uint};
use parsed::Parsed;

// Whether the sign of a constraint stands at `at`: `->` or `<>`.
fn is_sign(text: &[u8], at: usize) -> bool
    requires { at ≤ length text.now }
    ensures { result ≡ means.sign_at text.now at }
{
    has_two(text, at, b'-', b'>') || has_two(text, at, b'<', b'>')
}

// Reads an element of a constraint set: where it ends. Where no family follows a sign, the first family is an element by
// itself.
fn constraint(text: &[u8], at: usize) -> Option<usize>
    requires { at ≤ length text.now }
    ensures { means.end_reading text.now result ≡ means.forget (rule.constraint at (drop at text.now)) }
{
    let to = family_end(text, at);
    if to == at {
        return None;
    }
    let sign = whitespace_end(text, to);
    if is_sign(text, sign) {
        let from = whitespace_end(text, sign + 2);
        let end = family_end(text, from);
        if from < end {
            return Some(end);
        }
    }
    Some(to)
}

// `..` and a layer.
fn layer_after_dots(text: &[u8], at: usize) -> Option<Parsed<u32>>
    requires { at ≤ length text.now }
    ensures { reading (from_bits 32) text.now result ≡ means.layer_after_dots at (drop at text.now) }
{
    if has_two(text, at, b'.', b'.') {
        sint(text, at + 2, 1, MAX_LAYER, MAX_LAYER)
    } else {
        None
    }
}

// `-` and a layer.
pub fn layer_after_hyphen(text: &[u8], at: usize) -> Option<Parsed<u32>>
    requires { at ≤ length text.now }
    ensures { reading (λ n. n) text.now result ≡ means.layer_after_hyphen at (drop at text.now) }
{
    if has(text, at, b'-') {
        uint(text, at + 1, 1, MAX_LAYER)
    } else {
        None
    }
}

// The range `i-j` at `at`, or else the layer by itself: `first`, the number at `at`, was read.
fn unsigned_layer_range(
    text: &[u8],
    at: usize,
    first: Parsed<u32>,
) -> Option<Parsed<LayerSetElement>>
    requires at_in_bounds { at ≤ length text.now }
    requires first_read { rule.signed_layer at (drop at text.now) ≡ taken (from_bits 32) text.now first }
    ensures { reading means.layer_set_element_of text.now result ≡ means.unsigned_or_single at (drop at text.now) }
{
    if has(text, at, b'-') {
        return Some(single(first));
    }
    let Some(last) = layer_after_hyphen(text, first.next) else {
        return Some(single(first));
    };
    Some(range(first, last))
}

// A number as the element that is this layer.
fn single(layer: Parsed<u32>) -> Parsed<LayerSetElement>
    ensures value { result.value ≡ LayerSetElement.Single layer.value }
    ensures next { result.next ≡ layer.next }
{
    Parsed {
        value: LayerSetElement::Single(layer.value),
        next: layer.next,
    }
}

// Two numbers as the element that is the range between them.
fn range(first: Parsed<u32>, last: Parsed<u32>) -> Parsed<LayerSetElement>
    ensures value { result.value ≡ LayerSetElement.Range first.value last.value }
    ensures next { result.next ≡ last.next }
{
    Parsed {
        value: LayerSetElement::Range(first.value, last.value),
        next: last.next,
    }
}

// Reads an element of a layer set: `i..j`, under HSC1 also `i-j`, or one layer.
pub fn layer_set_element(text: &[u8], at: usize, hsc1: bool) -> Option<Parsed<LayerSetElement>>
    requires { at ≤ length text.now }
    ensures { reading means.layer_set_element_of text.now result ≡ rule.layer_set_element hsc1 at (drop at text.now) }
{
    let Some(first) = sint(text, at, 1, MAX_LAYER, MAX_LAYER) else {
        return None;
    };
    let Some(last) = layer_after_dots(text, first.next) else {
        if hsc1 {
            return unsigned_layer_range(text, at, first);
        }
        return Some(single(first));
    };
    Some(range(first, last))
}

// What a set in braces holds.
trait Element: Copy {
    // How an element is read, as the rules have it.
    ghost reads: { Self → Reader (Unit {0}) };

    // Where the element at `at` ends. None is empty.
    fn end(self, text: &[u8], at: usize) -> Option<usize>
        requires { at ≤ length text.now }
        ensures means { means.end_reading text.now result ≡ reads self at (drop at text.now) }
        ensures within { IfSome result (λ end. (at < end) × (end ≤ length text.now)) };
}

// An element of a constraint set.
#[derive(Clone, Copy)]
struct ConstraintElement;

// An element of a layer set, with `i-j` or without.
#[derive(Clone, Copy)]
struct LayerElement {
    hsc1: bool,
}

impl Element for ConstraintElement {
    ghost reads = { λ _. means.constraint_end };

    fn end(self, text: &[u8], at: usize) -> Option<usize> {
        constraint(text, at)
    }
}

impl Element for LayerElement {
    ghost reads = { λ layer. means.layer_end layer.hsc1 };

    fn end(self, text: &[u8], at: usize) -> Option<usize> {
        let Some(element) = layer_set_element(text, at, self.hsc1) else {
            return None;
        };
        Some(element.next)
    }
}

// The brace that ends a set.
fn closing(text: &[u8], at: usize) -> Option<usize>
    requires { at ≤ length text.now }
    ensures { means.end_reading text.now result ≡ means.brace at (drop at text.now) }
{
    if has(text, at, b'}') {
        Some(at + 1)
    } else {
        None
    }
}

// Reads a set in braces, with commas between its elements: where it ends.
fn braces<E: Element>(text: &[u8], at: usize, element: E) -> Option<usize>
    requires { at ≤ length text.now }
    ensures { means.end_reading text.now result
        ≡ means.forget (rule.braces (E.reads element) at (drop at text.now)) }
{
    if has(text, at, b'{') {
        return in_braces(text, at, element);
    }
    None
}

// The same where a brace is known to stand. Apart, because most nodes have none: the test alone is small enough to stand
// in its callers, where this would slow down the moves without a set. After a comma only an element can follow. One loop
// for the first element and the others, so that reading an element has one caller.
#[inline(never)]
fn in_braces<E: Element>(text: &[u8], at: usize, element: E) -> Option<usize>
    requires { (at ≤ length text.now) × (byte_at text.now at ≡ 123) }
    ensures { means.end_reading text.now result
        ≡ means.forget (rule.braces (E.reads element) at (drop at text.now)) }
{
    // The brace or comma that stands before an element.
    let mut mark = at;
    loop {
        let from = whitespace_end(text, mark + 1);
        let Some(next) = element.end(text, from) else {
            // Only a set without elements lacks one.
            if mark == at {
                return closing(text, from);
            }
            return None;
        };
        let comma = whitespace_end(text, next);
        if has(text, comma, b',') {
            mark = comma;
        } else {
            return closing(text, comma);
        }
    }
}

// Reads a set of constraints: where it ends.
pub fn constraint_set(text: &[u8], at: usize) -> Option<usize>
    requires { at ≤ length text.now }
    ensures { means.end_reading text.now result ≡ means.forget (rule.constraint_set at (drop at text.now)) }
{
    braces(text, at, ConstraintElement)
}

// Reads a layer set: where it ends.
pub fn layer_set(text: &[u8], at: usize, hsc1: bool) -> Option<usize>
    requires { at ≤ length text.now }
    ensures { means.end_reading text.now result
        ≡ means.forget (rule.layer_set_elements hsc1 at (drop at text.now)) }
{
    braces(text, at, LayerElement { hsc1 })
}
