// The cases of the entries that take a tree, and of the listing, which takes none: a letter for the entry, length of the
// lent buffer (6 digits), place or record (16 digits), `max_layer` (8 digits), whether negatives are allowed (0 or 1),
// the text's segments, `|`, and the tree's segments.
use crate::buffers::Buffers;
use crate::hex::Damaged;
use crate::line::Line;
use crate::{hex, report, text};
use hypuz_notation::{
    count_steps, display, family, family_refusal, flatten, inv, inv_deep, seek_step, simplify,
};
use notation::limits::RANGE;
use notation::refusals::Refusal;
use record::RECORD;

// Bytes of a tree of the Rust's sample: no text of it has over 1,000 records.
const SAMPLED: usize = RECORD * 1000;

// The entries that a letter stands for.
#[derive(Clone, Copy)]
enum Entry {
    Inv,
    InvDeep,
    Display,
    CountSteps,
    Flatten,
    SeekStep,
    List,
    // The deep inverse as text, for the Rust's answers, which are texts.
    DeepShown,
    Simplify,
    Family,
}

// A letter that stands for no entry.
#[derive(Clone, Copy)]
struct Unknown;

impl TryFrom<u8> for Entry {
    type Error = Unknown;

    fn try_from(letter: u8) -> Result<Entry, Unknown> {
        match letter {
            b'i' => Ok(Entry::Inv),
            b'd' => Ok(Entry::InvDeep),
            b'p' => Ok(Entry::Display),
            b'c' => Ok(Entry::CountSteps),
            b'f' => Ok(Entry::Flatten),
            b's' => Ok(Entry::SeekStep),
            b'o' => Ok(Entry::List),
            b'x' => Ok(Entry::DeepShown),
            b'l' => Ok(Entry::Simplify),
            b'n' => Ok(Entry::Family),
            _ => Err(Unknown),
        }
    }
}

impl Entry {
    // Bytes of the lent buffer for each thing that an answer counts: steps take none.
    fn unit(self) -> usize {
        match self {
            Entry::CountSteps => 0,
            Entry::Simplify => RANGE,
            _ => 1,
        }
    }
}

// What is asked beside the text and the tree. Entries pass over what they do not take.
#[derive(Drop)]
struct Call {
    // The place of a step, or the number of a record.
    number: u64,
    max_layer: u32,
    negatives: bool,
}

// The answer of the case `given`.
pub fn case(given: &[u8], buffers: &mut Buffers) -> Result<Line, Damaged> {
    let [letter, given @ ..] = given else {
        return Err(Damaged);
    };
    let (lent, given) = hex::field(given, 6)?;
    let (call, spelled) = asked(given)?;
    let bar = spelled
        .iter()
        .position(|byte| *byte == b'|')
        .ok_or(Damaged)?;
    let text = &mut *buffers.text;
    let tree = &mut *buffers.tree;
    let out = &mut *buffers.out;
    let size = text::spell(&spelled[..bar], text)?;
    let records = text::spell(&spelled[bar + 1..], tree)?;
    // No refusal is 0: it tells a letter that stands for no entry.
    let Ok(entry) = Entry::try_from(*letter) else {
        return Ok(report::refused(0, &[]));
    };
    let room = lent.min(out.len());
    Ok(called(
        entry,
        call,
        &text[..size],
        &tree[..records],
        &mut out[..room],
    ))
}

// What is asked, and the text and the tree that are spelled behind it.
fn asked(given: &[u8]) -> Result<(Call, &[u8]), Damaged> {
    let (number, given) = hex::field(given, 16)?;
    let (max_layer, given) = hex::field(given, 8)?;
    let [negatives, spelled @ ..] = given else {
        return Err(Damaged);
    };
    let call = Call {
        number: number as u64,
        max_layer: u32::try_from(max_layer)?,
        negatives: *negatives == b'1',
    };
    Ok((call, spelled))
}

// Calls the entry of a case. `out` is what is lent.
fn called(entry: Entry, call: Call, text: &[u8], tree: &[u8], out: &mut [u8]) -> Line {
    out.fill(report::UNTOUCHED);
    let answer = match entry {
        Entry::Inv => inv(text, tree, out),
        Entry::InvDeep => inv_deep(text, tree, out),
        Entry::Display => display(text, tree, out),
        Entry::CountSteps => count_steps(text, tree),
        Entry::Flatten => flatten(text, tree, out),
        Entry::SeekStep => seek_step(text, tree, call.number, out),
        Entry::List => listing::list(text, out),
        Entry::DeepShown => deep_shown(text, tree, out),
        Entry::Simplify => simplify(text, tree, call.number, call.max_layer, call.negatives, out),
        Entry::Family => return named(call.number, text, tree),
    };
    report::answered(answer, entry.unit(), out)
}

// The deep inverse as text.
fn deep_shown(text: &[u8], tree: &[u8], out: &mut [u8]) -> Result<u64, Refusal> {
    let mut inverse = [0u8; SAMPLED];
    let size = inv_deep(text, tree, &mut inverse)?;
    let n = (size as usize).min(SAMPLED);
    display(text, &inverse[..n], out)
}

// The line of a family, a part of the text. Beside a refusal it is empty: bytes of it show as touched.
fn named(record: u64, text: &[u8], tree: &[u8]) -> Line {
    let family = family(text, tree, record);
    match family_refusal(text, tree, record) {
        None => report::read(family.len() as u64, family.len(), family),
        Some(refusal) => report::refused(refusal.number(), family),
    }
}
