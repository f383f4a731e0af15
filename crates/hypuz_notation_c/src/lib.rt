// The functions of include/hypuz_notation.h, each under its name in C: `hypuz_notation::host` answers, and says what the
// numbers mean. C passes a slice as a pointer and a length.

#![tactic(auto)]

ghost use Rattle.std.specs.Prelude.{◌≡◌, not, eqb};
ghost use Rattle.notation.specs.Entries as rule;
ghost use Rattle.notation.specs.Features as flags;
ghost use Rattle.notation.specs.Host.{coded, part_number, Hands};

use hypuz_notation::host;

// Bytes used. Bits 0 to 7 of features are the flags in the order of the header; higher bits are ignored.
#[unsafe(no_mangle)]
pub extern "C" fn hypuz_parse_notation(text: &[u8], features: u32, tree: &mut [u8]) -> u64
    ensures { Hands result tree.new
        (rule.parse_notation (flags.of_bits features) text.now tree.old) }
{
    host::hypuz_parse_notation(text, features, tree)
}

// The number of steps.
#[unsafe(no_mangle)]
pub extern "C" fn hypuz_count_steps(text: &[u8], tree: &[u8]) -> u64
    ensures { result ≡ coded (rule.count_steps text.now tree.now) }
{
    host::hypuz_count_steps(text, tree)
}

// The size of a record, that of the step at a place written.
#[unsafe(no_mangle)]
pub extern "C" fn hypuz_seek_step(text: &[u8], tree: &[u8], place: u64, step: &mut [u8]) -> u64
    ensures { Hands result step.new (rule.seek_step text.now tree.now place step.old) }
{
    host::hypuz_seek_step(text, tree, place, step)
}

// Bytes used: the shallow inverse.
#[unsafe(no_mangle)]
pub extern "C" fn hypuz_inv(text: &[u8], tree: &[u8], out: &mut [u8]) -> u64
    ensures { Hands result out.new (rule.inv_entry text.now tree.now out.old) }
{
    host::hypuz_inv(text, tree, out)
}

// The deep inverse.
#[unsafe(no_mangle)]
pub extern "C" fn hypuz_inv_deep(text: &[u8], tree: &[u8], out: &mut [u8]) -> u64
    ensures { Hands result out.new (rule.inv_deep_entry text.now tree.now out.old) }
{
    host::hypuz_inv_deep(text, tree, out)
}

// The tree as text.
#[unsafe(no_mangle)]
pub extern "C" fn hypuz_display(text: &[u8], tree: &[u8], out: &mut [u8]) -> u64
    ensures { Hands result out.new (rule.display_entry text.now tree.now out.old) }
{
    host::hypuz_display(text, tree, out)
}

// The unrolled list, a record for each step.
#[unsafe(no_mangle)]
pub extern "C" fn hypuz_flatten(text: &[u8], tree: &[u8], out: &mut [u8]) -> u64
    ensures { Hands result out.new (rule.flatten_entry text.now tree.now out.old) }
{
    host::hypuz_flatten(text, tree, out)
}

// The number of layer ranges. Negative layers are allowed unless `allow_negatives` is 0.
#[unsafe(no_mangle)]
pub extern "C" fn hypuz_simplify(
    text: &[u8],
    tree: &[u8],
    record: u64,
    max_layer: u32,
    allow_negatives: u32,
    out: &mut [u8],
) -> u64
    ensures { Hands result out.new (rule.simplify_bytes text.now tree.now «record» max_layer
        (not (eqb allow_negatives 0)) out.old) }
{
    host::hypuz_simplify(text, tree, record, max_layer, allow_negatives, out)
}

// Where a family stands: its offset times PART plus its length.
#[unsafe(no_mangle)]
pub extern "C" fn hypuz_family(text: &[u8], tree: &[u8], record: u64) -> u64
    ensures { result ≡ coded (part_number (rule.family_span text.now tree.now «record»)) }
{
    host::hypuz_family(text, tree, record)
}
