// Unrolling a tree into a buffer: what stands inverted is written forward, turned round where it lies and undone.
ghost use Rattle.std.specs.Prelude.{◌≡◌, false, ◌++◌, ℕ, ◌+◌, ◌-◌, ◌*◌, ◌≤◌, ◌<◌, length, take, drop};
ghost use Rattle.notation.specs.Invert.{undo};
ghost use Rattle.notation.specs.Packed.{RECORD as record_size, unpack};
ghost use Rattle.notation.specs.Entries.{records};
ghost use Rattle.notation.specs.Unroll.{copies};
ghost use Rattle.record.specs.Undone.{StartsRecord};
ghost use Rattle.laws.specs.Packed.{Packed};
ghost use Rattle.laws.specs.Unrolled.{backwards, flat, flat_body};
ghost use Rattle.notation.specs.Counts.{count, count_body};
ghost use Rattle.nodes.specs.Nodes.{part};
ghost use Rattle.expand.specs.Steps.{as_steps, AreSteps, BothLists, Front, IsGroup, WroteSteps};
ghost use Rattle.expand.specs.Steps.{completed, either, first_body, last_of, undone_record};

use nodes::{first_end, node_end};
use numbers::signed::{is_negative, magnitude};
use record::copy::copy_record;
use record::undo::undo_record;
use record::{Kind, RECORD, fields};

// Writes the steps of a tree to the front of out and answers their size in bytes.
#[cycle(flatten_flatten_body_flatten_node)]
pub fn flatten(tree: &[u8], out: &mut [u8]) -> usize
    requires packed { Packed tree.now }
    requires tree_in_bounds { record_size * count (unpack tree.now) ≤ length out.old }
    ensures { WroteSteps out.old out.new (flat undo false (unpack tree.now)) result }
{
    let mut t = tree;
    let mut at = 0;
    while 0 < t.len() {
        // A leaf is one record, which is the step.
        if fields::is_leaf(t) {
            copy_record(&t[0..RECORD], &mut out[at..]);
            at += RECORD;
            t = &t[RECORD..];
        } else {
            let end = node_end(t);
            // What counts 0 is passed over.
            if fields::count(t) != 0 {
                let size = flatten_node(&t[0..end], &mut out[at..]);
                at += size;
            }
            t = &t[end..];
        }
    }
    at
}

// Writes the steps of a list in either direction to the front of out and answers their size in bytes.
pub fn flatten_either(list: &[u8], inverted: bool, out: &mut [u8]) -> usize
    requires packed { Packed list.now }
    requires list_in_bounds { record_size * count (unpack list.now) ≤ length out.old }
    ensures { WroteSteps out.old out.new (flat undo inverted (unpack list.now)) result }
{
    let written = flatten(list, out);
    turn_if(out, written, inverted)
}

// Writes the steps of a group, given its bytes, that has some, and answers their size in bytes.
#[cycle(flatten_flatten_body_flatten_node)]
fn flatten_node(node: &[u8], out: &mut [u8]) -> usize
    requires group { IsGroup node.now }
    requires nonzero { 0 < count (unpack node.now) }
    requires node_in_bounds { record_size * count (unpack node.now) ≤ length out.old }
    ensures { WroteSteps out.old out.new (flat undo false (unpack node.now)) result }
{
    let multiplier = fields::number(node);
    let size = flatten_body(node, is_negative(multiplier), out);
    let total = size * (magnitude(multiplier) as usize);
    repeat(out, size, total);
    total
}

// Writes the contents of a group, given its bytes, played once in either direction, and answers their size in bytes. The
// multiplier is not looked at, and of a NISS group it is the list that is written.
#[cycle(flatten_flatten_body_flatten_node)]
pub fn flatten_body(node: &[u8], inverted: bool, out: &mut [u8]) -> usize
    requires group { IsGroup node.now }
    requires node_in_bounds { record_size * count_body (first_body (unpack node.now)) ≤ length out.old }
    ensures { WroteSteps out.old out.new
        (flat_body undo inverted (first_body (unpack node.now))) result }
{
    let kind = fields::kind(node);
    let middle = first_end(node);
    let a = flatten(&node[RECORD..middle], out);
    if !kind.is_binary() {
        return turn_if(out, a, inverted);
    }
    let b = flatten(&node[middle..], &mut out[a..]);
    let size = complete_binary(out, kind == Kind::Commutator, a, b);
    turn_if(out, size, inverted)
}

// Completes a binary group whose lists A and B stand at the front: writes A' and, of a commutator, B' behind them.
fn complete_binary(out: &mut [u8], commutator: bool, a: usize, b: usize) -> usize
    requires { BothLists out.old commutator a b }
    ensures { WroteSteps out.old out.new
        (completed commutator (as_steps (take a out.old)) (as_steps (take b (drop a out.old)))) result }
{
    let size = a + b;
    let third = size + a;
    if commutator {
        let whole = size + size;
        repeat(out, size, whole);
        turn(&mut out[size..third]);
        turn(&mut out[third..whole]);
        return whole;
    }
    repeat(out, size, third);
    turn(&mut out[size..third]);
    third
}

// Turns the steps in the first `size` bytes round where they are to be inverted, and answers their size.
fn turn_if(out: &mut [u8], size: usize, inverted: bool) -> usize
    requires { Front out.old size }
    ensures { WroteSteps out.old out.new (either (as_steps (take size out.old)) inverted) result }
{
    if inverted {
        turn(&mut out[0..size]);
    }
    size
}

// Repeats the first `size` bytes up to `total`.
fn repeat(out: &mut [u8], size: usize, total: usize)
    requires { (size ≤ total) × (total ≤ length out.old) }
    ensures { (n : ℕ) → total ≤ n * size → out.new ≡ take total (copies n (take size out.old)) ++
        drop total out.old }
{
    for i in size..total {
        out[i] = out[i - size];
    }
}

// Turns a run of steps round and undoes each, from both ends inwards. Both bounds move by hand: a `for` would work out both from
// one number.
pub fn turn(steps: &mut [u8])
    requires { AreSteps steps.old }
    ensures { steps.new ≡ records (backwards (as_steps steps.old)) }
{
    let mut from = 0;
    let mut to = steps.len();
    while from + RECORD < to {
        exchange_ends(&mut steps[from..to]);
        from += RECORD;
        to -= RECORD;
    }
    // Of an odd number, the one in the middle is only undone.
    if from < to {
        undo_record(&mut steps[from..to]);
    }
}

// The first and the last of two records or more change places, each undone. Both are copied first: `swap_with_slice`
// exchanges them byte by byte, which takes twice as long.
fn exchange_ends(steps: &mut [u8])
    requires record_size_in_bounds { record_size + record_size ≤ length steps.old }
    requires starts_record { StartsRecord steps.old × StartsRecord (last_of steps.old) }
    ensures { steps.new
        ≡ undone_record (last_of steps.old) ++
        (part record_size (length steps.old - record_size) steps.old ++ undone_record steps.old) }
{
    let to = steps.len() - RECORD;
    let mut first = [0; RECORD];
    let mut last = [0; RECORD];
    copy_record(&steps[0..RECORD], &mut first);
    copy_record(&steps[to..], &mut last);
    copy_record(&last, steps);
    copy_record(&first, &mut steps[to..]);
    undo_record(steps);
    undo_record(&mut steps[to..]);
}
