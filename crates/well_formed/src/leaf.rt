// Nodes that are no group: the parts of the text that they name, and their numbers.
ghost use Rattle.std.specs.Prelude.{◌≡◌, ◌+◌, []};
ghost use Rattle.std.specs.Slice.{IsGetRangeResult};
ghost use Rattle.notation.specs.Grammar.{at_end};
ghost use Rattle.notation.specs.Numbers.{from_bits};
ghost use Rattle.notation.specs.Tree as tree;
ghost use Rattle.notation.specs.WellFormed as rule;
ghost use Rattle.parse.specs.Meaning.{end_reading};
ghost use Rattle.record.specs.Meaning.{span, span_option, layers, rotation_leaf, move_leaf};

use charsets::family_end;
use notation::limits::MAX_LAYER;
use numbers::signed::MIN;
use parse::{constraint_set, layer_set};
use record::spanned::{LayerPrefixContents, Move, Rotation, Span};

// Whether a multiplier is in bounds: the smallest number is none, since it has no opposite.
pub fn multiplier_ok(bits: u32) -> bool
    ensures { result ≡ rule.multiplier_ok (from_bits 32 bits) }
{
    bits != MIN
}

// The part of the text, if it stands inside.
fn part(text: &[u8], p: Span) -> Option<&[u8]>
    ensures { IsGetRangeResult text.now p.offset (p.offset + p.size) result }
{
    let from = p.offset as usize;
    text.get(from..from + p.size as usize)
}

// Whether at least so many bytes stand there, all of them family characters. A character that the part cuts off is none.
fn family_ok(text: &[u8], p: Span, least: usize) -> bool
    ensures { result ≡ rule.family_ok text.now least (span p) }
{
    match part(text, p) {
        Some(name) => least <= name.len() && family_end(name, 0) == name.len(),
        None => false,
    }
}

// Whether what was read of a part is the whole of it.
#[tactic(auto, using(crate::proofs::Tests::to_end_test))]
fn to_end(part: &[u8], taken: Option<usize>) -> bool
    ensures { result ≡ rule.is_some (at_end (end_reading part.now taken)) }
{
    match taken {
        Some(end) => part.len() <= end,
        None => false,
    }
}

// Whether constraints, where there are any, are a set of constraints.
#[tactic(auto, using(crate::proofs::Tests::part_test), unfolding(notation::specs::Meaning::constraints_in))]
fn constraints_ok(text: &[u8], constraints: Option<Span>) -> bool
    ensures { result ≡ rule.constraints_ok text.now (span_option constraints) }
{
    match constraints {
        Some(p) => match part(text, p) {
            Some(set) => to_end(set, constraint_set(set, 0)),
            None => false,
        },
        None => true,
    }
}

// Whether two layers are in bounds and in order.
fn range_ok(low: u16, high: u16) -> bool
    ensures { result ≡ rule.layers_ok [] (tree.layer_range low high) }
{
    1 <= low && low <= high && high <= MAX_LAYER
}

// Whether a part of the text is a set of layers.
#[tactic(auto, using(crate::proofs::Tests::part_test), unfolding(notation::specs::Meaning::layer_set_in))]
fn layer_set_ok(text: &[u8], p: Span) -> bool
    ensures { result ≡ rule.layers_ok text.now (tree.layer_set (span p)) }
{
    match part(text, p) {
        Some(set) => to_end(set, layer_set(set, 0, true)),
        None => false,
    }
}

// Whether the layers of a move are in bounds.
fn layers_ok(text: &[u8], l: LayerPrefixContents) -> bool
    ensures { result ≡ rule.layers_ok text.now (layers l) }
{
    match l {
        LayerPrefixContents::None => true,
        LayerPrefixContents::Single(i) => range_ok(i, i),
        LayerPrefixContents::Range(i, j) => range_ok(i, j),
        LayerPrefixContents::Set(p) => layer_set_ok(text, p),
    }
}

// Whether what a rotation names is in bounds.
#[tactic(auto, unfolding(notation::specs::WellFormed::leaf_ok))]
pub fn rotation_ok(text: &[u8], x: Rotation) -> bool
    ensures { result ≡ rule.leaf_ok text.now (rotation_leaf x) }
{
    let family = x.family;
    let constraints = x.constraints;
    family_ok(text, family, 0) && constraints_ok(text, constraints) && multiplier_ok(x.multiplier)
}

// Whether what a move names is in bounds.
#[tactic(auto, unfolding(notation::specs::WellFormed::leaf_ok))]
pub fn move_ok(text: &[u8], x: Move) -> bool
    ensures { result ≡ rule.leaf_ok text.now (move_leaf x) }
{
    let l = x.layers;
    let family = x.family;
    let constraints = x.constraints;
    layers_ok(text, l)
        && family_ok(text, family, 1)
        && constraints_ok(text, constraints)
        && multiplier_ok(x.multiplier)
}
