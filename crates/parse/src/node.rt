// Lists and nodes, which enter each other: `node_list` and `node` of the Rust's parse.rs. A slot is a place for a
// record, counted from the start of the tree. A record is written only where the buffer has its slot: over an empty
// buffer a run only measures. In the field of the step count it gets the tally of its list, by which the count is filled
// in once all records stand (crate `tally`).
ghost use Rattle.std.specs.Prelude.{◌≡◌, ◌+◌, ◌*◌, ◌%◌, ◌≤◌, ◌<◌, length, drop, get_or, set};
ghost use Rattle.notation.specs.Entries.{MAX-TEXT};
ghost use Rattle.notation.specs.Grammar as rule;
ghost use Rattle.notation.specs.Packed as packed;
ghost use Rattle.record.specs.Meaning.{listed, COUNT};
ghost use Rattle.parse.specs.Nodes as nodes;

use crate::leaves::{group_kind, leaf, multiplier};
use crate::look::has;
use charsets::whitespace_end;
use notation::common::BinaryGroupKind;
use notation::features::Features;
use parsed::Parsed;
use record::RECORD;
use record::encode::{Fields, binary_group_fields, group_fields, put};
use tally::{OF_FIRST, OF_SECOND};

// Where a list or a node ends in the text, and the slot after its last record.
#[derive(Clone, Copy, Debug, PartialEq, Eq)]
pub struct Listed {
    pub next: usize,
    pub slot: usize,
}

// Reads a closing bracket and the multiplier after it.
fn close(text: &[u8], at: usize, features: Features, bracket: u8) -> Option<Parsed<u32>>
    requires { at ≤ length text.now }
    ensures { nodes.Closed features text.now at bracket result }
{
    if has(text, at, bracket) {
        Some(multiplier(text, at + 1, features))
    } else {
        None
    }
}

// Reads the sign between the two lists of a binary group.
fn binary_group_kind(text: &[u8], at: usize) -> Option<BinaryGroupKind>
    ensures { nodes.binary_kind text.now at result ≡ rule.binary_group_kind at (drop at text.now) }
{
    if has(text, at, b',') {
        return Some(BinaryGroupKind::Commutator);
    }
    if has(text, at, b':') {
        return Some(BinaryGroupKind::Conjugate);
    }
    None
}

// Writes a node's record, with the number of its list's tally where the count will stand. The number is below 256; said
// here, it spares three stores. The function is put into its callers, so that a leaf's fields never go through memory.
#[inline(always)]
fn put_record(tree: &mut [u8], slot: usize, f: Fields, tally: u64)
    requires { slot ≤ MAX-TEXT }
    ensures { tree.new
        ≡ nodes.put (packed.RECORD * slot) (packed.lay_out packed.widths (set (listed f) COUNT (tally % 256))) tree.old }
{
    let at = RECORD * slot;
    let end = at + RECORD;
    if end <= tree.len() {
        let mut g = f;
        g.count = tally % 256;
        put(&mut tree[at..end], g);
    }
}

// Reads a node that is no group, and writes its record.
fn leaf_node(
    text: &[u8],
    at: usize,
    features: Features,
    tree: &mut [u8],
    slot: usize,
    tally: u64,
) -> Option<Listed>
    requires { nodes.Within text.now at slot tally }
    ensures { nodes.NodeAnswered (λ _. rule.node features rule.fail) text.now at slot tally tree.old
        tree.new result }
{
    let Some(leaf) = leaf(text, at, features) else {
        return None;
    };
    put_record(tree, slot, leaf.value, tally);
    Some(Listed {
        next: leaf.next,
        slot: slot + 1,
    })
}

// Reads nodes with white space between them. A list ends where no node follows, and takes the white space before that.
#[cycle(any_group_binary_group_group_node_node_list)]
pub fn node_list(
    text: &[u8],
    at: usize,
    features: Features,
    tree: &mut [u8],
    slot: usize,
    tally: u64,
) -> Listed
    requires { nodes.Within text.now at slot tally }
    ensures { nodes.ListRead features text.now at slot tally tree.old tree.new result.next
        result.slot }
{
    let mut next = whitespace_end(text, at);
    let mut end = slot;
    loop {
        let Some(read) = node(text, next, features, tree, end, tally) else {
            return Listed { next, slot: end };
        };
        end = read.slot;
        next = whitespace_end(text, read.next);
        if next == read.next {
            return read;
        }
    }
}

// Reads a node. A leaf is tried first: where one stands, no group does, so the rule's order does not matter, and most
// nodes are leaves.
#[cycle(any_group_binary_group_group_node_node_list)]
fn node(
    text: &[u8],
    at: usize,
    features: Features,
    tree: &mut [u8],
    slot: usize,
    tally: u64,
) -> Option<Listed>
    requires { nodes.Within text.now at slot tally }
    ensures { nodes.NodeAnswered (λ k. rule.node features (rule.node_list features k)) text.now at slot tally
        tree.old tree.new result }
{
    if let Some(leaf) = leaf_node(text, at, features, tree, slot, tally) {
        return Some(leaf);
    }
    any_group(text, at, features, tree, slot, tally)
}

// Reads a group of either sort. The first byte tells which one it can be.
#[cycle(any_group_binary_group_group_node_node_list)]
fn any_group(
    text: &[u8],
    at: usize,
    features: Features,
    tree: &mut [u8],
    slot: usize,
    tally: u64,
) -> Option<Listed>
    requires { nodes.Within text.now at slot tally }
    ensures { nodes.NodeAnswered (λ k. nodes.repeated features (nodes.nested (rule.node_list features k))) text.now
        at slot tally tree.old tree.new result }
{
    if text.len() <= at {
        return None;
    }
    match text[at] {
        b'(' | b'!' | b'&' | b'^' => group(text, at, features, tree, slot, tally),
        b'[' => binary_group(text, at, features, tree, slot, tally),
        _ => None,
    }
}

// Reads a group. Its record is written after its contents, which tell how many records it holds.
#[cycle(any_group_binary_group_group_node_node_list)]
fn group(
    text: &[u8],
    at: usize,
    features: Features,
    tree: &mut [u8],
    slot: usize,
    tally: u64,
) -> Option<Listed>
    requires { nodes.Within text.now at slot tally × (at < length text.now) }
    ensures { nodes.NodeAnswered (λ k. nodes.repeated features (rule.group_node (rule.node_list features k))) text.now
        at slot tally tree.old tree.new result }
{
    let start = group_kind(text, at);
    let open = start.next;
    if !has(text, open, b'(') {
        return None;
    }
    let list = node_list(text, open + 1, features, tree, slot + 1, tally + OF_FIRST);
    let Some(end) = close(text, list.next, features, b')') else {
        return None;
    };
    let first = (list.slot - (slot + 1)) as u32;
    put_record(
        tree,
        slot,
        group_fields(start.value, first, end.value, 0),
        tally,
    );
    Some(Listed {
        next: end.next,
        slot: list.slot,
    })
}

// Reads a commutator or a conjugate.
#[cycle(any_group_binary_group_group_node_node_list)]
fn binary_group(
    text: &[u8],
    at: usize,
    features: Features,
    tree: &mut [u8],
    slot: usize,
    tally: u64,
) -> Option<Listed>
    requires { nodes.Within text.now at slot tally × (at < length text.now) × (get_or text.now at 0 ≡ 91) }
    ensures { nodes.NodeAnswered (λ k. nodes.repeated features (rule.binary_group_node (rule.node_list features k)))
        text.now at slot tally tree.old tree.new result }
{
    let a = node_list(text, at + 1, features, tree, slot + 1, tally + OF_FIRST);
    let Some(kind) = binary_group_kind(text, a.next) else {
        return None;
    };
    let b = node_list(text, a.next + 1, features, tree, a.slot, tally + OF_SECOND);
    let Some(end) = close(text, b.next, features, b']') else {
        return None;
    };
    let first = (a.slot - (slot + 1)) as u32;
    let second = (b.slot - a.slot) as u32;
    put_record(
        tree,
        slot,
        binary_group_fields(kind, first, second, end.value, 0),
        tally,
    );
    Some(Listed {
        next: end.next,
        slot: b.slot,
    })
}
