// Layer ranges into a lent run of ranges, each low and high: the Rust's `Vec<LayerRange>`. The work is done on bytes, and
// `fill` puts what they say into the run.

#![tactic(auto)]

ghost use Rattle.std.specs.Prelude.{◌≡◌, ◌++◌, map, ◌+◌, ◌*◌, ◌≤◌, length, drop};
ghost use Rattle.notation.specs.Entries as rule;
ghost use Rattle.layer.specs.Meaning as meaning;
ghost use Rattle.ranges.specs.Lent.{range_at, ranges_from, range_count, Resolved};

use layer::{Layer, LayerRange};
use notation::limits::RANGE;
use notation::refusals::Refusal;
use numbers::big_endian::read;

// Simplified ranges neither overlap nor touch, so an axis has at most 16,384 of them.
const BYTES: usize = RANGE * 16384;

// The k-th of the ranges that the bytes hold.
fn range_at(bytes: &[u8], k: usize) -> LayerRange
    requires { 4 * k + 4 ≤ length bytes.now }
    ensures { result ≡ range_at bytes.now k }
{
    let at = RANGE * k;
    // Two calls and no array: the two fields of two bytes are read as they are named.
    LayerRange {
        min: Layer(read::<2>(bytes, at) as u16),
        max: Layer(read::<2>(bytes, at + 2) as u16),
    }
}

// Writes the first of them over a run, as many as it holds.
fn fill(bytes: &[u8], ranges: &mut [LayerRange])
    requires { 4 * length ranges.old ≤ length bytes.now }
    ensures { ranges.new ≡ ranges_from bytes.now (length ranges.old) 0 }
{
    for (k, range) in ranges.iter_mut().enumerate() {
        *range = range_at(bytes, k);
    }
}

// The ranges as bytes, which always have room, and the answer for a run that has room for `room` ranges.
fn resolve(
    text: &[u8],
    tree: &[u8],
    record: u64,
    max_layer: u32,
    allow_negatives: bool,
    room: usize,
    bytes: &mut [u8],
) -> Result<u64, Refusal>
    requires { length bytes.old ≡ 65536 }
    ensures { Resolved text.now tree.now «record» max_layer allow_negatives room result
        bytes.new }
{
    let n = entries::simplify(text, tree, record, max_layer, allow_negatives, bytes)?;
    if (room as u64) < n {
        return Err(Refusal::NoRoom);
    }
    Ok(n)
}

// How many ranges an answer says; a refusal says none.
fn count(answer: Result<u64, Refusal>) -> usize
    ensures { result ≡ range_count answer }
{
    match answer {
        Ok(n) => n as usize,
        Err(_) => 0,
    }
}

// The layers that the move at a record turns, on an axis of `max_layer` layers, with a tilde those that its prefix
// without it does not give: the number of ranges, written over the front of `ranges`. Refusals 1, 2, 6, 11, 12, 5. What
// is refused writes none.
pub fn simplify(
    text: &[u8],
    tree: &[u8],
    record: u64,
    max_layer: u32,
    allow_negatives: bool,
    ranges: &mut [LayerRange],
) -> Result<u64, Refusal>
    ensures { rule.lent result (map meaning.range ranges.new)
        ≡ rule.simplify text.now tree.now «record» max_layer allow_negatives
        (map meaning.range ranges.old) }
{
    let mut bytes = [0; BYTES];
    let room = ranges.len();
    let answer = resolve(
        text,
        tree,
        record,
        max_layer,
        allow_negatives,
        room,
        &mut bytes,
    );
    let n = count(answer);
    fill(&bytes, &mut ranges[..n]);
    answer
}
