// The step at a place of the unrolled list, found in one loop: nodes before the place are passed by the counts that they
// store, and of a group that has the place a list is entered. The time depends neither on the number of steps nor on
// what stands inside a group that is passed.
ghost use Rattle.std.specs.Prelude.{◌≡◌, ◌++◌, ℕ, ◌+◌, ◌-◌, ◌<◌, ◌≤◌, not, length, drop};
ghost use Rattle.std.proofs.Math.Option.{Option};
ghost use Rattle.notation.specs.Basics.{pick};
ghost use Rattle.notation.specs.Tree.{Leaf};
ghost use Rattle.notation.specs.Invert.{undo};
ghost use Rattle.notation.specs.Packed.{RECORD as record_size, leaf_record, unpack};
ghost use Rattle.notation.specs.Counts.{count_binary, count};
ghost use Rattle.expand.specs.Meaning.{binary_kind};
ghost use Rattle.expand.specs.Places.{Has, Sought, step_in, found};
ghost use Rattle.expand.specs.Steps.{Undoable, IsGroup};

use crate::count::count;
use nodes::{first_end, node_end};
use numbers::signed::{is_negative, magnitude};
use record::copy::copy_record;
use record::undo::undo_record;
use record::{Kind, RECORD, fields};

// Which step of a list is sought: the one at the place, undone if the direction is inverted.
#[derive(Clone, Copy, Debug, PartialEq, Eq)]
struct Target {
    place: u64,
    inverted: bool,
}

impl Target {
    // The same step among the `steps` steps from their end, each undone.
    fn turned(self, steps: u64) -> Target
        requires { self.place < steps }
        ensures { (result.place ≡ steps - 1 - self.place) × (result.inverted ≡ not self.inverted) }
    {
        Target {
            place: steps - 1 - self.place,
            inverted: !self.inverted,
        }
    }
}

// Writes the record of the step at a place to the front of step.
pub fn seek(tree: &[u8], place: u64, step: &mut [u8])
    requires has { Has tree.now place }
    requires record_size_in_bounds { record_size ≤ length step.old }
    ensures { step.new ≡ found (step_in tree.now place) ++ drop record_size step.old }
{
    // The step sought is the target in the rest of the list.
    let mut rest = tree;
    let mut target = Target {
        place,
        inverted: false,
    };
    loop {
        // A leaf is one record and one step: neither its count nor its lists need be read.
        if fields::is_leaf(rest) {
            if target.place == 0 {
                write_step(&rest[0..RECORD], target.inverted, step);
                return;
            }
            target.place -= 1;
            rest = &rest[RECORD..];
            continue;
        }
        let steps = fields::count(rest);
        let end = node_end(rest);
        if steps <= target.place {
            target.place -= steps;
            rest = &rest[end..];
            continue;
        }
        // The group has the place: it is looked for in one of its lists.
        let (list, inner) = enter(&rest[0..end], steps, target);
        rest = list;
        target = inner;
    }
}

// The list of a group that has the step sought, and the target in it.
fn enter(group: &[u8], steps: u64, target: Target) -> (&[u8], Target)
    requires group { IsGroup group.now × Has group.now target.place }
    requires steps_counted { steps ≡ count (unpack group.now) }
    ensures shorter { length result.0.now < length group.now }
    ensures entered { (sought : Option Leaf) → Sought sought group.now target.place target.inverted
        → Sought sought result.0.now result.1.place result.1.inverted }
{
    let kind = fields::kind(group);
    let multiplier = fields::number(group);
    let middle = first_end(group);
    let first = &group[RECORD..middle];
    // Whole repeats are passed. Of a negative multiplier a repeat comes from its end, undone.
    let once = steps / (magnitude(multiplier) as u64);
    let mut target = target;
    target.place %= once;
    if is_negative(multiplier) {
        target = target.turned(once);
    }
    if !kind.is_binary() {
        return (first, target);
    }
    // A B A' B' or A B A': in A' and B' the steps of A and B come from the end, undone.
    let second = &group[middle..];
    let a = count(first);
    let both = both_count(kind == Kind::Commutator, once, a);
    if target.place < a {
        return (first, target);
    }
    if target.place < both {
        target.place -= a;
        return (second, target);
    }
    if target.place < both + a {
        return (first, target.turned(both + a));
    }
    (second, target.turned(once))
}

// Writes a step's record, undone if the direction is inverted.
fn write_step(from: &[u8], inverted: bool, step: &mut [u8])
    requires undoable { (x : Leaf) × (Undoable x × (from.now ≡ leaf_record x)) }
    requires from_len { (length from.now ≡ record_size) × (record_size ≤ length step.old) }
    ensures { (x : Leaf) → Undoable x → from.now ≡ leaf_record x → step.new ≡ leaf_record
        (pick inverted (undo x) x) ++ drop record_size step.old }
{
    copy_record(from, step);
    if inverted {
        undo_record(step);
    }
}

// How many steps A and B have together, of all in A B A' B' or A B A'.
fn both_count(commutator: bool, once: u64, a: u64) -> u64
    requires { a ≤ once }
    ensures { (b : ℕ) → once ≡ count_binary (binary_kind commutator) a b → result ≡ a + b }
{
    if commutator {
        return once / 2;
    }
    once - a
}
