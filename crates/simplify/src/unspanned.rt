// The layers that a move turns, as ranges: `LayerPrefixContents::to_ranges` and `simplify` of the Rust's unspanned.rs,
// and behind a tilde the other layers of the axis, as the Rust's `LayerPrefix::to_layer_mask` inverts its mask.
ghost use Rattle.std.specs.Prelude.{◌≡◌, true, [], ◌+◌, ◌≤◌, ◌<◌, nat_abs, length, drop, replicate};
ghost use Rattle.notation.specs.Numbers.{from_bits};
ghost use Rattle.notation.specs.Layers as rule;
ghost use Rattle.notation.specs.Entries.{MAX-TEXT};
ghost use Rattle.notation.specs.Grammar.{padded, just};
ghost use Rattle.notation.specs.Meaning.{layer_set_in, or_empty};
ghost use Rattle.notation.specs.WellFormed.{is_some, layers_ok};
ghost use Rattle.notation.specs.Entries.{ranges_in};
ghost use Rattle.layer.specs.Meaning as meaning;
ghost use Rattle.record.specs.Meaning as record';
ghost use Rattle.parse.specs.Meaning.{layer_set_element_of, end_reading};
ghost use Rattle.simplify.specs.Reach as table;
ghost use Rattle.simplify.specs.Elements as elements;

use crate::around::simplify_no_set;
use crate::reach::{count_runs, mark, turn_over, write_runs};
use charsets::whitespace_end;
use layer::{AxisLayersInfo, Layer, LayerRange, SignedLayer};
use notation::limits::{MAX_LAYER, RANGE};
use notation::refusals::Refusal;
use numbers::signed::{is_negative, magnitude};
use parse::layer_set_element;
use parse::parts::LayerSetElement;
use record::spanned::LayerPrefixContents;

// The entries of the table of an axis with few layers: clearing the large one costs more than all the rest.
const FEW_LAYERS: usize = 128;

// The entries of the table of any axis.
const ALL_LAYERS: usize = MAX_LAYER as usize + 1;

// The layer that 32 bits of a signed number name.
fn signed_layer(bits: u32) -> SignedLayer
    requires { meaning.IsLayer (nat_abs (from_bits 32 bits)) }
    ensures { meaning.signed result ≡ from_bits 32 bits }
{
    SignedLayer {
        negative: is_negative(bits),
        layer: Layer(magnitude(bits) as u16),
    }
}

// The layers that an element of a set names.
fn element_range(axis: AxisLayersInfo, element: LayerSetElement) -> Option<LayerRange>
    requires layer { meaning.IsLayer axis.max_layer }
    requires element { elements.IsElement (layer_set_element_of element) }
    ensures result_value { meaning.range_option result
        ≡ rule.element_range axis.max_layer axis.allow_negatives (layer_set_element_of element) }
    ensures each { meaning.Each (meaning.RangeUpTo axis.max_layer) (meaning.range_option result) }
{
    match element {
        LayerSetElement::Single(i) => axis.resolve(signed_layer(i)).map(LayerRange::from),
        LayerSetElement::Range(i, j) => axis.resolve_range(signed_layer(i), signed_layer(j)),
    }
}

// Gathers the range of one element.
fn mark_element(reach: &mut [u16], axis: AxisLayersInfo, element: LayerSetElement)
    requires layer { meaning.IsLayer axis.max_layer }
    requires max_layer_in_bounds { axis.max_layer < length reach.old }
    requires element { elements.IsElement (layer_set_element_of element) }
    ensures { reach.new
        ≡ elements.marked_element axis.max_layer axis.allow_negatives (layer_set_element_of element) reach.old }
{
    if let Some(range) = element_range(axis, element) {
        mark(reach, range);
    }
}

// Where the next element of a set starts, if a comma follows.
fn after_comma(part: &[u8], at: usize) -> Option<usize>
    requires { at ≤ length part.now }
    ensures { end_reading part.now result ≡ padded (just ",") at (drop at part.now) }
{
    let comma = whitespace_end(part, at);
    if comma < part.len() {
        if part[comma] == b',' {
            return Some(whitespace_end(part, comma + 1));
        }
    }
    None
}

// Gathers the ranges of a layer set, braces and all.
fn mark_set(part: &[u8], axis: AxisLayersInfo, reach: &mut [u16])
    requires layer { meaning.IsLayer axis.max_layer }
    requires max_layer_in_bounds { axis.max_layer < length reach.old }
    requires part_value { is_some (layer_set_in part.now) ≡ true }
    ensures { reach.new
        ≡ elements.marked_set axis.max_layer axis.allow_negatives (or_empty (layer_set_in part.now))
        reach.old }
{
    let mut at = whitespace_end(part, 1);
    loop {
        let Some(element) = layer_set_element(part, at, true) else {
            return;
        };
        mark_element(reach, axis, element.value);
        let Some(from) = after_comma(part, element.next) else {
            return;
        };
        at = from;
    }
}

// Gathers the ranges of a layer set in an empty table of the axis, or with a tilde the layers that they do not give.
fn gather_set(part: &[u8], axis: AxisLayersInfo, inverted: bool, reach: &mut [u16])
    requires layer { meaning.IsLayer axis.max_layer }
    requires reach_value { reach.old ≡ replicate (axis.max_layer + 1) 0 }
    requires part_value { is_some (layer_set_in part.now) ≡ true }
    ensures { table.Gathered axis.max_layer
        (elements.lit_set axis.max_layer axis.allow_negatives inverted part.now) reach.new }
{
    mark_set(part, axis, reach);
    if inverted {
        turn_over(reach);
    }
}

// The ranges of a layer set, or with a tilde of the other layers, over an empty table of the axis.
fn simplify_set(
    part: &[u8],
    axis: AxisLayersInfo,
    inverted: bool,
    reach: &mut [u16],
    out: &mut [u8],
) -> Result<u64, Refusal>
    requires layer { meaning.IsLayer axis.max_layer }
    requires reach_value { reach.old ≡ replicate (axis.max_layer + 1) 0 }
    requires part_value { is_some (layer_set_in part.now) ≡ true }
    ensures { elements.GivesRanges
        (elements.lit_set axis.max_layer axis.allow_negatives inverted part.now) result out.new
        out.old }
{
    gather_set(part, axis, inverted, reach);
    let runs = count_runs(reach);
    if out.len() / RANGE < runs {
        return Err(Refusal::NoRoom);
    }
    write_runs(reach, out);
    Ok(runs as u64)
}

// Simplifies a layer set by a table of N entries, which the stack of this function holds and no other's.
fn simplify_set_by<const N: usize>(
    part: &[u8],
    axis: AxisLayersInfo,
    inverted: bool,
    out: &mut [u8],
) -> Result<u64, Refusal>
    requires layer { meaning.IsLayer axis.max_layer }
    requires max_layer_in_bounds { axis.max_layer < N }
    requires table_len_bound { N ≤ 65536 }
    requires part_value { is_some (layer_set_in part.now) ≡ true }
    ensures { elements.GivesRanges
        (elements.lit_set axis.max_layer axis.allow_negatives inverted part.now) result out.new
        out.old }
{
    let mut reach = [0u16; N];
    let layers = axis.max_layer as usize + 1;
    simplify_set(part, axis, inverted, &mut reach[..layers], out)
}

// The layers that a move turns on an axis with `max_layer` layers: ranges that neither overlap nor touch, by depth. With
// a tilde (`inverted`) these are the layers that the same prefix without it does not give.
pub fn simplify(
    text: &[u8],
    inverted: bool,
    layers: LayerPrefixContents,
    max_layer: u16,
    allow_negatives: bool,
    out: &mut [u8],
) -> Result<u64, Refusal>
    requires layer { meaning.IsLayer max_layer }
    requires text_len_bound { length text.now ≤ MAX-TEXT }
    requires layers_value { layers_ok text.now (record'.layers layers) ≡ true }
    ensures { elements.GivesRanges
        (rule.lit max_layer inverted (ranges_in text.now max_layer allow_negatives (record'.layers layers))) result
        out.new out.old }
{
    match layers {
        LayerPrefixContents::None => {
            let range = LayerRange::from(Layer::SHALLOWEST);
            simplify_no_set(range, inverted, max_layer, out)
        }
        LayerPrefixContents::Single(i) => {
            let range = LayerRange::from(Layer(i));
            simplify_no_set(range, inverted, max_layer, out)
        }
        LayerPrefixContents::Range(i, j) => {
            let range = LayerRange {
                min: Layer(i),
                max: Layer(j),
            };
            simplify_no_set(range, inverted, max_layer, out)
        }
        LayerPrefixContents::Set(span) => {
            let from = span.offset as usize;
            let to = from + span.size as usize;
            let part = &text[from..to];
            let axis = AxisLayersInfo {
                max_layer,
                allow_negatives,
            };
            if (max_layer as usize) < FEW_LAYERS {
                simplify_set_by::<FEW_LAYERS>(part, axis, inverted, out)
            } else {
                simplify_set_by::<ALL_LAYERS>(part, axis, inverted, out)
            }
        }
    }
}
