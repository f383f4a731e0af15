// What one record of a tree names: the layers that a move turns, and a family's part of the text.
ghost use Rattle.std.specs.Prelude.{◌≡◌, ◌/◌, ◌≤◌, true, length, MatchResult};
ghost use Rattle.notation.specs.declared.refusals.Refusal.TheVariants.{NoSuchRecord};
ghost use Rattle.notation.specs.Packed.{RECORD as record_size};
ghost use Rattle.notation.specs.Entries as rule;
ghost use Rattle.entries.specs.Parts.{part_outcome, or_zero, Inside, Fits, Begins};

use checked::check;
use notation::limits;
use notation::refusals::Refusal;
use record::decode::{family_of, layers};
use record::spanned::Span;
use record::{Kind, RECORD, fields};

const MAX_LAYER: u32 = limits::MAX_LAYER as u32;

// The tree from its record of that number on, or refusal 12 where it has none.
fn record_at(tree: &[u8], record: u64) -> Result<&[u8], Refusal>
    ensures { MatchResult result (λ found. Begins tree.now «record» found.now)
        (λ r. (r ≡ NoSuchRecord) × (length tree.now / record_size ≤ «record»)) }
{
    if (tree.len() / RECORD) as u64 <= record {
        return Err(Refusal::NoSuchRecord);
    }
    Ok(&tree[RECORD * (record as usize)..])
}

// The layers that the move at a record turns, on an axis of `max_layer` layers, with a tilde those that its prefix
// without it does not give: the number of ranges, each written as low and high, 16 bits big-endian. Refusals 1, 2, 6,
// 11, 12, 5.
pub fn simplify(
    text: &[u8],
    tree: &[u8],
    record: u64,
    max_layer: u32,
    allow_negatives: bool,
    out: &mut [u8],
) -> Result<u64, Refusal>
    ensures { rule.lent result out.new
        ≡ rule.simplify_bytes text.now tree.now «record» max_layer allow_negatives out.old }
{
    check(text, tree)?;
    if !(1..=MAX_LAYER).contains(&max_layer) {
        return Err(Refusal::NoSuchLayerCount);
    }
    let Ok(found) = record_at(tree, record) else {
        return Err(Refusal::NoSuchRecord);
    };
    if fields::kind(found) != Kind::Move {
        return Err(Refusal::NoSuchRecord);
    }
    let inverted = fields::tilde(found);
    let layers = layers(found);
    simplify::simplify(
        text,
        inverted,
        layers,
        max_layer as u16,
        allow_negatives,
        out,
    )
}

// Where the family of a record stands in the text: refusals 1, 2, 6, 12.
pub fn family_part(text: &[u8], tree: &[u8], record: u64) -> Result<Span, Refusal>
    ensures result_value { part_outcome result ≡ rule.family_span text.now tree.now «record» }
    ensures inside { Inside text.now result }
    ensures fits { Fits result }
{
    check(text, tree)?;
    let Ok(found) = record_at(tree, record) else {
        return Err(Refusal::NoSuchRecord);
    };
    let kind = fields::kind(found);
    if kind != Kind::Rotation && kind != Kind::Move {
        return Err(Refusal::NoSuchRecord);
    }
    Ok(family_of(found))
}

// The family itself: the very part of the caller's text, and an empty one where there is none.
pub fn family<'a>(text: &'a [u8], tree: &[u8], record: u64) -> &'a [u8]
    ensures { result.now ≡ rule.family text.now tree.now «record» }
{
    match family_part(text, tree, record) {
        Ok(p) => &text[p.offset as usize..][..p.size as usize],
        Err(_) => &text[0..0],
    }
}

// The refusal beside it, if there is one.
pub fn family_refusal(text: &[u8], tree: &[u8], record: u64) -> Option<Refusal>
    ensures { or_zero result ≡ rule.family_refusal text.now tree.now «record» }
{
    family_part(text, tree, record).err()
}
