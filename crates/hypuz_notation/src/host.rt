// The entries for a host that calls from C (include/hypuz_notation.h): byte slices and numbers only. Each answers one
// number, the refusal's number times 2^56 plus the value modulo 2^56, which no value reaches (specs/Host of `notation`:
// `Lossless`). The crate `hypuz_notation_c` exports each under its name here.
ghost use Rattle.std.specs.Prelude.{◌≡◌, not, eqb};
ghost use Rattle.notation.specs.Entries as rule;
ghost use Rattle.notation.specs.Features as flags;
ghost use Rattle.notation.specs.Host.{coded, part_number, Hands};

use entries::parts::family_part;
use entries::{count_steps, display, flatten, inv, inv_deep, seek_step, simplify};
use notation::features;
use notation::refusals::Refusal;
use parse::parse_notation;

// 2^56
const VALUES: u64 = 72057594037927936;

// 2^24
const PART: u64 = 16777216;

// An answer as one number.
fn code(answer: Result<u64, Refusal>) -> u64
    ensures { result ≡ coded (rule.outcome answer) }
{
    match answer {
        Ok(value) => value % VALUES,
        Err(refusal) => refusal.number() as u64 * VALUES,
    }
}

// Bytes used. Bits 0 to 7 of features are the flags in the order of the header; higher bits are ignored.
pub fn hypuz_parse_notation(text: &[u8], features: u32, tree: &mut [u8]) -> u64
    ensures { Hands result tree.new
        (rule.parse_notation (flags.of_bits features) text.now tree.old) }
{
    code(parse_notation(text, features::from_bits(features), tree))
}

// The number of steps.
pub fn hypuz_count_steps(text: &[u8], tree: &[u8]) -> u64
    ensures { result ≡ coded (rule.count_steps text.now tree.now) }
{
    code(count_steps(text, tree))
}

// The size of a record, that of the step at a place written.
pub fn hypuz_seek_step(text: &[u8], tree: &[u8], place: u64, step: &mut [u8]) -> u64
    ensures { Hands result step.new (rule.seek_step text.now tree.now place step.old) }
{
    code(seek_step(text, tree, place, step))
}

// Bytes used: the shallow inverse.
pub fn hypuz_inv(text: &[u8], tree: &[u8], out: &mut [u8]) -> u64
    ensures { Hands result out.new (rule.inv_entry text.now tree.now out.old) }
{
    code(inv(text, tree, out))
}

// The deep inverse.
pub fn hypuz_inv_deep(text: &[u8], tree: &[u8], out: &mut [u8]) -> u64
    ensures { Hands result out.new (rule.inv_deep_entry text.now tree.now out.old) }
{
    code(inv_deep(text, tree, out))
}

// The tree as text.
pub fn hypuz_display(text: &[u8], tree: &[u8], out: &mut [u8]) -> u64
    ensures { Hands result out.new (rule.display_entry text.now tree.now out.old) }
{
    code(display(text, tree, out))
}

// The unrolled list, a record for each step.
pub fn hypuz_flatten(text: &[u8], tree: &[u8], out: &mut [u8]) -> u64
    ensures { Hands result out.new (rule.flatten_entry text.now tree.now out.old) }
{
    code(flatten(text, tree, out))
}

// The number of layer ranges. Negative layers are allowed unless `allow_negatives` is 0.
pub fn hypuz_simplify(
    text: &[u8],
    tree: &[u8],
    record: u64,
    max_layer: u32,
    allow_negatives: u32,
    out: &mut [u8],
) -> u64
    ensures { Hands result out.new (rule.simplify_bytes text.now tree.now «record» max_layer
        (not (eqb allow_negatives 0)) out.old) }
{
    let negatives = allow_negatives != 0;
    code(simplify(text, tree, record, max_layer, negatives, out))
}

// Where a family stands: its offset times PART plus its length.
pub fn hypuz_family(text: &[u8], tree: &[u8], record: u64) -> u64
    ensures { result ≡ coded (part_number (rule.family_span text.now tree.now «record»)) }
{
    match family_part(text, tree, record) {
        Ok(p) => p.offset as u64 * PART + p.size as u64,
        Err(refusal) => refusal.number() as u64 * VALUES,
    }
}
