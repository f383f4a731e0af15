// Prefixes that are no set: they give at most one range, and with a tilde the layers before it and those after it. None of
// these needs a table.
ghost use Rattle.std.specs.Prelude.{◌≡◌, ◌++◌, ◌+◌, ◌*◌, ◌≤◌, [], length};
ghost use Rattle.notation.specs.Layers as rule;
ghost use Rattle.layer.specs.Meaning as meaning;
ghost use Rattle.simplify.specs.Reach as table;
ghost use Rattle.simplify.specs.Elements as elements;

use crate::reach::write_range;
use layer::{Layer, LayerRange};
use notation::limits::RANGE;
use notation::refusals::Refusal;

// The layers from `low` to `high`, if there are such layers.
fn some_range(low: u16, high: u16) -> Option<LayerRange>
    ensures { table.listed result ≡ table.some_from low high }
{
    if high < low {
        return None;
    }
    Some(LayerRange {
        min: Layer(low),
        max: Layer(high),
    })
}

// Writes a range, if there is one, over the bytes from `at` on. Answers where the next one goes.
fn write_some(out: &mut [u8], at: usize, range: Option<LayerRange>) -> usize
    requires { at + 4 * length (table.listed range) ≤ length out.old }
    ensures out_after { out.new ≡ table.written out.old at (table.listed range) }
    ensures value { result ≡ at + 4 * length (table.listed range) }
{
    let Some(range) = range else {
        return at;
    };
    write_range(out, at, range);
    at + RANGE
}

// Answers the ranges of two, either of which may be none.
fn answer_both(
    first: Option<LayerRange>,
    second: Option<LayerRange>,
    out: &mut [u8],
) -> Result<u64, Refusal>
    ensures { elements.Gives (table.listed first ++ table.listed second) result out.new out.old }
{
    let ranges = first.is_some() as usize + second.is_some() as usize;
    if out.len() / RANGE < ranges {
        return Err(Refusal::NoRoom);
    }
    let at = write_some(out, 0, first);
    write_some(out, at, second);
    Ok(ranges as u64)
}

// The layers of the range as far as the axis has them.
fn simplify_range(range: LayerRange, max_layer: u16, out: &mut [u8]) -> Result<u64, Refusal>
    requires { meaning.IsRange (meaning.range range) }
    ensures { elements.GivesRanges (rule.keep (rule.clamp_to_layer_count max_layer (meaning.range range)) []) result
        out.new out.old }
{
    answer_both(range.clamp_to_layer_count(max_layer), None, out)
}

// The layers of the axis without those of the range.
pub fn simplify_around(range: LayerRange, max_layer: u16, out: &mut [u8]) -> Result<u64, Refusal>
    requires range { meaning.IsRange (meaning.range range) }
    requires layer { meaning.IsLayer max_layer }
    ensures { elements.GivesRanges
        (rule.others max_layer (rule.keep (rule.clamp_to_layer_count max_layer (meaning.range range)) [])) result
        out.new out.old }
{
    let before = some_range(1, max_layer.min(range.min.0 - 1));
    let after = some_range(range.max.0 + 1, max_layer);
    answer_both(before, after, out)
}

// Simplifies a prefix that is no set, with a tilde before it or without one.
pub fn simplify_no_set(
    range: LayerRange,
    inverted: bool,
    max_layer: u16,
    out: &mut [u8],
) -> Result<u64, Refusal>
    requires range { meaning.IsRange (meaning.range range) }
    requires layer { meaning.IsLayer max_layer }
    ensures { elements.GivesRanges
        (rule.lit max_layer inverted (rule.keep (rule.clamp_to_layer_count max_layer (meaning.range range)) [])) result
        out.new out.old }
{
    if inverted {
        simplify_around(range, max_layer, out)
    } else {
        simplify_range(range, max_layer, out)
    }
}
