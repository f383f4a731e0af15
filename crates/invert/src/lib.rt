// Both inverses of a packed tree (invert.rs and the `Invert` impls). A packed list can only be walked forwards, so each
// node is written at its place counted from the end.

#![tactic(auto)]

pub mod parts;
pub mod refusal;

ghost use Rattle.std.specs.Prelude.{◌≡◌, ◌/◌, ◌≤◌, length};
ghost use Rattle.notation.specs.Tree.{Leaf, Node};
ghost use Rattle.notation.specs.Lending.{number_of};
ghost use Rattle.notation.specs.Packed.{RECORD as record_size, pack, unpack};
ghost use Rattle.record.specs.Meaning.{field, kind_at};
ghost use Rattle.laws.specs.Packed.{Packed};
ghost use Rattle.laws.specs.Inverted.{inverted, inv_refusal, deeply, deep_refusal};
ghost use Rattle.nodes.specs.Nodes.{IsNode};
ghost use Rattle.invert.specs.Nodes.{inverse};

use nodes::{first_end, node_end};
use notation::refusals::Refusal;
use parts::inner_start;
use record::copy::copy_record;
use record::undo::undo_record;
use record::{Kind, RECORD, fields};
use refusal::pair_refusal;

// The refusal of the shallow inverse: 8 where a node of the outer list is a pair that has no opposite.
pub fn inv_refusal(tree: &[u8]) -> Option<Refusal>
    requires { Packed tree.now }
    ensures { number_of result ≡ inv_refusal (unpack tree.now) }
{
    let mut t = tree;
    let mut found = None;
    while 0 < t.len() {
        found = pair_refusal(t).or(found);
        let e = node_end(t);
        t = &t[e..];
    }
    found
}

// The first refusal that the deep inverse meets from the last node to the first. A later node's refusal replaces an
// earlier one: the walk goes forwards, the rule backwards.
#[cycle(inv_deep_refusal_node_refusal)]
pub fn inv_deep_refusal(tree: &[u8]) -> Option<Refusal>
    requires { Packed tree.now }
    ensures { number_of result ≡ deep_refusal (unpack tree.now) }
{
    let mut t = tree;
    let mut found = None;
    while 0 < t.len() {
        let e = node_end(t);
        found = node_refusal(&t[..e]).or(found);
        t = &t[e..];
    }
    found
}

// The refusal of a node. Of a commutator no list is entered, of a conjugate the second.
#[cycle(inv_deep_refusal_node_refusal)]
fn node_refusal(node: &[u8]) -> Option<Refusal>
    requires { (n : Node Leaf) × IsNode node.now n }
    ensures { number_of result ≡ deep_refusal (unpack node.now) }
{
    let kind = fields::kind(node);
    if kind == Kind::Niss {
        return Some(Refusal::Niss);
    }
    if kind == Kind::Commutator {
        return None;
    }
    if fields::is_leaf(node) {
        return pair_refusal(node);
    }
    let m = inner_start(node);
    inv_deep_refusal(&node[m..])
}

// Writes the shallow inverse: what stands inside a group is kept as it is.
pub fn inv(tree: &[u8], out: &mut [u8])
    requires packed { Packed tree.now }
    requires out_len { length out.old ≡ length tree.now }
    ensures { out.new ≡ pack (inverted (unpack tree.now)) }
{
    invert(tree, out, false);
}

// Writes the deep inverse: multipliers of groups are kept, their contents inverted.
pub fn inv_deep(tree: &[u8], out: &mut [u8])
    requires packed { Packed tree.now }
    requires out_len { length out.old ≡ length tree.now }
    ensures { out.new ≡ pack (deeply (unpack tree.now)) }
{
    invert(tree, out, true);
}

// Writes either inverse: they differ only in what is done to a group. A flag says which, since a trait's method that
// calls this function again gets no proof of its loans.
#[cycle(invert_invert_group)]
fn invert(tree: &[u8], out: &mut [u8], deep: bool)
    requires packed { Packed tree.now }
    requires out_len { length out.old ≡ length tree.now }
    ensures { out.new ≡ pack (inverse deep (unpack tree.now)) }
{
    let mut t = tree;
    let mut at = out.len();
    while 0 < t.len() {
        // A leaf is one record.
        if fields::is_leaf(t) {
            let to = at - RECORD;
            inv_leaf(&t[..RECORD], &mut out[to..at]);
            at = to;
            t = &t[RECORD..];
        } else {
            let e = node_end(t);
            let to = at - e;
            invert_group(&t[..e], &mut out[to..at], deep);
            at = to;
            t = &t[e..];
        }
    }
}

// Writes the inverse of a group. Deep, its contents are inverted and its multiplier is kept; shallow, it is the other
// way round.
#[cycle(invert_invert_group)]
fn invert_group(node: &[u8], out: &mut [u8], deep: bool)
    requires node { (n : Node Leaf) × IsNode node.now n }
    requires node_bound { kind_at node.now ≤ 5 }
    requires out_len { length out.old ≡ length node.now }
    ensures { out.new ≡ pack (inverse deep (unpack node.now)) }
{
    if deep {
        if fields::kind(node) == Kind::Commutator {
            exchange_lists(node, out);
            return;
        }
        let m = inner_start(node);
        copy(&node[..m], &mut out[..m]);
        invert(&node[m..], &mut out[m..], true);
        return;
    }
    inv_node(node, out);
}

// Writes the inverse of a leaf, whose one record is copied as such: that is quicker than a copy of any length.
fn inv_leaf(node: &[u8], out: &mut [u8])
    requires node { (n : Node Leaf) × IsNode node.now n }
    requires node_len { (length node.now ≡ record_size) × (length out.old ≡ length node.now) }
    ensures { out.new ≡ pack (inverted (unpack node.now)) }
{
    copy_record(node, out);
    undo_record(out);
}

// Writes the shallow inverse of a group, given its bytes.
fn inv_node(node: &[u8], out: &mut [u8])
    requires node { (n : Node Leaf) × IsNode node.now n }
    requires out_len { length out.old ≡ length node.now }
    ensures { out.new ≡ pack (inverted (unpack node.now)) }
{
    copy(node, out);
    undo_record(out);
}

// Writes the deep inverse of a commutator: its lists exchanged.
fn exchange_lists(node: &[u8], out: &mut [u8])
    requires node { (n : Node Leaf) × IsNode node.now n }
    requires commutator { kind_at node.now ≡ 4 }
    requires out_len { length out.old ≡ length node.now }
    ensures { out.new ≡ pack (deeply (unpack node.now)) }
{
    let first = fields::first(node);
    let second = fields::second(node);
    let m = first_end(node);
    let n = RECORD + (node.len() - m);
    copy(&node[..RECORD], &mut out[..RECORD]);
    copy(&node[m..], &mut out[RECORD..n]);
    copy(&node[RECORD..m], &mut out[n..]);
    fields::set_lists(out, second, first);
}

// Copies bytes, one after the other: `copy_from_slice` would ask the platform for memmove, which a host need not have
// (include/hypuz_notation.h). By an index, since after a loop over `iter_mut` only the length of `out` would be known.
fn copy(from: &[u8], out: &mut [u8])
    requires { length from.now ≡ length out.old }
    ensures { out.new ≡ from.now }
{
    for i in 0..from.len() {
        out[i] = from[i];
    }
}
