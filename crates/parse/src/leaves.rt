// The rules of the Rust's parse.rs that hold no list of nodes. Each function is handed the text and an offset, and hands
// back what stands there and the offset after it, or nothing. No byte is read again where a choice can be told from
// those before.
ghost use Rattle.std.specs.Prelude.{◌≡◌, true, ◌≤◌, ◌<◌, eqb, length, drop};
ghost use Rattle.notation.specs.Utf8.{byte_at};
ghost use Rattle.notation.specs.Entries.{MAX-TEXT};
ghost use Rattle.notation.specs.Grammar as rule;
ghost use Rattle.notation.specs.Numbers.{from_bits};
ghost use Rattle.parsed.specs.Reading.{taken, reading};
ghost use Rattle.record.specs.Meaning.{layers, listed, span_option};
ghost use Rattle.parse.specs.Meaning as means;

use crate::look::{family_span, has, span_between};
use crate::parts::MAX_LAYER;
use crate::puzzles::{admitted_sq1_move, is_scramble, megaminx_scramble_move};
use crate::sets::{constraint_set, layer_after_hyphen, layer_set};
use charsets::{family_end, has_curly_prime};
use notation::common::GroupKind;
use notation::features::Features;
use numbers::decimal::uint;
use numbers::signed::{MAX, negate};
use parsed::Parsed;
use record::encode::{Fields, move_fields, pause_fields, rotation_fields};
use record::spanned::{LayerPrefixContents, Move, Rotation, Span};

// The layer or the range of layers that stands at `at`.
fn numbered_layers(text: &[u8], at: usize) -> Parsed<LayerPrefixContents>
    requires { at ≤ length text.now }
    ensures { taken layers text.now result ≡ means.numbered_layers at (drop at text.now) }
{
    let Some(first) = uint(text, at, 1, MAX_LAYER) else {
        return Parsed {
            value: LayerPrefixContents::None,
            next: at,
        };
    };
    let i = first.value as u16;
    let Some(last) = layer_after_hyphen(text, first.next) else {
        return Parsed {
            value: LayerPrefixContents::Single(i),
            next: first.next,
        };
    };
    let j = last.value as u16;
    Parsed {
        value: LayerPrefixContents::Range(i.min(j), i.max(j)),
        next: last.next,
    }
}

// The layers before a family; none is fine. No number starts with a brace.
pub fn layer_prefix_contents(
    text: &[u8],
    at: usize,
    features: Features,
) -> Parsed<LayerPrefixContents>
    requires { (at ≤ length text.now) × (length text.now ≤ MAX-TEXT) }
    ensures { taken layers text.now result
        ≡ rule.layer_prefix_contents features at (drop at text.now) }
{
    if features.layers.layer_sets && has(text, at, b'{') {
        let Some(next) = layer_set(text, at, features.layers.hsc1_layer_ranges) else {
            return Parsed {
                value: LayerPrefixContents::None,
                next: at,
            };
        };
        let part = span_between(at, next);
        return Parsed {
            value: LayerPrefixContents::Set(part),
            next,
        };
    }
    numbered_layers(text, at)
}

// `~`, where it is admitted.
fn tilde(text: &[u8], at: usize, features: Features) -> Parsed<bool>
    requires { at ≤ length text.now }
    ensures { taken (λ b. b) text.now result ≡ rule.tilde features at (drop at text.now) }
{
    if features.layers.inverted_layers && has(text, at, b'~') {
        return Parsed {
            value: true,
            next: at + 1,
        };
    }
    Parsed {
        value: false,
        next: at,
    }
}

// The constraints after a family; none is fine.
fn constraints(text: &[u8], at: usize, features: Features) -> Parsed<Option<Span>>
    requires { (at ≤ length text.now) × (length text.now ≤ MAX-TEXT) }
    ensures { taken span_option text.now result ≡ rule.constraints features at (drop at text.now) }
{
    if features.transform_constraints && has(text, at, b'{') {
        let Some(next) = constraint_set(text, at) else {
            return Parsed {
                value: None,
                next: at,
            };
        };
        let part = span_between(at, next);
        return Parsed {
            value: Some(part),
            next,
        };
    }
    Parsed {
        value: None,
        next: at,
    }
}

// The number of a multiplier: 1 where none is written.
fn number(text: &[u8], at: usize) -> Parsed<u32>
    requires { at ≤ length text.now }
    ensures result_value { taken (λ n. n) text.now result ≡ means.number at (drop at text.now) }
    ensures bits_bound { (result.value ≤ 2147483647) × (result.next ≤ length text.now) }
{
    uint(text, at, 0, MAX).unwrap_or(Parsed { value: 1, next: at })
}

// Where the prime at `at` ends, of those that are admitted; `at` where none stands there.
fn prime_end(text: &[u8], at: usize, features: Features) -> usize
    requires { at ≤ length text.now }
    ensures { means.prime_reading text.now at result ≡ rule.prime features at (drop at text.now) }
{
    if has(text, at, b'\'') {
        return at + 1;
    }
    if features.curly_primes && has_curly_prime(text, at) {
        return at + 3;
    }
    at
}

// How often a node is repeated: a number or none, and a prime that negates it or none.
pub fn multiplier(text: &[u8], at: usize, features: Features) -> Parsed<u32>
    requires { at ≤ length text.now }
    ensures { taken (from_bits 32) text.now result ≡ rule.multiplier features at (drop at text.now) }
{
    let times = number(text, at);
    let next = prime_end(text, times.next, features);
    if next == times.next {
        return times;
    }
    Parsed {
        value: negate(times.value),
        next,
    }
}

// What stands before the `(` of a group.
pub fn group_kind(text: &[u8], at: usize) -> Parsed<GroupKind>
    requires { at ≤ length text.now }
    ensures { taken (λ k. k) text.now result ≡ rule.group_kind at (drop at text.now) }
{
    if has(text, at, b'!') {
        return Parsed {
            value: GroupKind::Macro,
            next: at + 1,
        };
    }
    if has(text, at, b'&') {
        return Parsed {
            value: GroupKind::Simultaneous,
            next: at + 1,
        };
    }
    if has(text, at, b'^') {
        return Parsed {
            value: GroupKind::Niss,
            next: at + 1,
        };
    }
    Parsed {
        value: GroupKind::Simple,
        next: at,
    }
}

// Reads a rotation, whose `@` was seen.
fn rotation(text: &[u8], at: usize, features: Features) -> Option<Parsed<Fields>>
    requires at_in_bounds { (at < length text.now) × (length text.now ≤ MAX-TEXT) }
    requires at_sign { eqb (byte_at text.now at) 64 ≡ true }
    ensures { reading listed text.now result
        ≡ means.repeated features (rule.rotation_node features at (drop at text.now)) }
{
    if features.generalized_rotations {
        let from = at + 1;
        let end = family_end(text, from);
        let family = family_span(from, end);
        let set = constraints(text, end, features);
        let times = multiplier(text, set.next, features);
        return Some(Parsed {
            value: rotation_fields(Rotation {
                family,
                constraints: set.value,
                multiplier: times.value,
            }),
            next: times.next,
        });
    }
    None
}

// Reads a move: layers, a family of at least one character, constraints and a multiplier.
fn move_(text: &[u8], at: usize, features: Features) -> Option<Parsed<Fields>>
    requires { (at ≤ length text.now) × (length text.now ≤ MAX-TEXT) }
    ensures { reading listed text.now result
        ≡ means.repeated features (rule.move_node features at (drop at text.now)) }
{
    let sign = tilde(text, at, features);
    let prefix = layer_prefix_contents(text, sign.next, features);
    let from = prefix.next;
    let end = family_end(text, from);
    if end == from {
        return None;
    }
    let family = family_span(from, end);
    let set = constraints(text, end, features);
    let times = multiplier(text, set.next, features);
    Some(Parsed {
        value: move_fields(Move {
            inverted: sign.value,
            layers: prefix.value,
            family,
            constraints: set.value,
            multiplier: times.value,
        }),
        next: times.next,
    })
}

// Reads a scramble move, or else a move.
fn scramble_or_move(text: &[u8], at: usize, features: Features) -> Option<Parsed<Fields>>
    requires { (at < length text.now) × (length text.now ≤ MAX-TEXT) }
    ensures { reading listed text.now result ≡ means.scramble_or_move features at (drop at text.now) }
{
    if features.megaminx && is_scramble(text, at) {
        megaminx_scramble_move(text, at)
    } else {
        move_(text, at, features)
    }
}

// Reads a leaf, a node that is no group. Its first byte tells which one it can be.
pub fn leaf(text: &[u8], at: usize, features: Features) -> Option<Parsed<Fields>>
    requires { (at ≤ length text.now) × (length text.now ≤ MAX-TEXT) }
    ensures means { reading listed text.now result
        ≡ rule.and_then (rule.node features rule.fail at (drop at text.now))
        (λ n. rule.done (means.node_fields n)) }
    ensures within { means.Within at (length text.now) result }
{
    if text.len() <= at {
        return None;
    }
    match text[at] {
        b'.' => Some(Parsed {
            value: pause_fields(),
            next: at + 1,
        }),
        b'@' => rotation(text, at, features),
        b'(' | b'/' => admitted_sq1_move(text, at, features),
        _ => scramble_or_move(text, at, features),
    }
}
