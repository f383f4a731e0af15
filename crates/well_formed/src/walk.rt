// Refusal 6: a tree is well formed if its bytes are what packing writes of its nodes, each node is in bounds, and groups
// are nested at most 64 deep. The same visit of each record adds up the step counts that packing writes and finds the
// first refusal, 7 or 8, that unrolling meets in each direction.
ghost use Rattle.std.specs.Prelude.{◌≡◌, Bool, true, ◌&&◌, ◌||◌, ℕ, ◌+◌, ◌*◌, ◌/◌, ◌≤◌, ◌<◌, leb, eqb, length, take, is_some, IfSome};
ghost use Rattle.notation.specs.Basics.{pick, same_list};
ghost use Rattle.notation.specs.Numbers.{from_bits};
ghost use Rattle.notation.specs.Packed.{RECORD, head_record, head_at, unpack};
ghost use Rattle.notation.specs.WellFormed.{multiplier_ok};
ghost use Rattle.record.specs.Meaning.{field, kind_at, FIRST, SECOND, NUMBER};
ghost use Rattle.record.specs.Kinds.{kind_number};
ghost use Rattle.record.specs.Undone.{overflows_at};
ghost use Rattle.well_formed.specs.Formed.{well_formed_steps, formed_count, first_node, first_ok, first_count};
ghost use Rattle.well_formed.specs.Meaning.{step_count, Meets, MeetsNode};

use crate::leaf::{move_ok, multiplier_ok, rotation_ok};
use crate::refusals::{NONE, Refusals, join, join_leaf, of_group};
use counts::{cap, sum};
use notation::limits::MAX_NESTING;
use record::decode::{layered_move, rotation};
use record::encode::{LEAF, fields_at, same_fields, without_parts};
use record::undo::overflows;
use record::unused::leaf_written;
use record::{Kind, RECORD, fields};

// What one visit of a tree, a list or a group finds, if it is well formed: how many steps it has, capped, and the first
// refusals that unrolling it meets.
#[derive(Clone, Copy, Debug, PartialEq, Eq)]
pub struct Visited {
    pub steps: u64,
    pub met: Refusals,
}

// How many steps a well-formed tree has, and what unrolling it meets.
#[tactic(auto, unfolding(notation::specs::WellFormed::well_formed, crate::specs::Formed::formed))]
pub fn visit(text: &[u8], tree: &[u8]) -> Option<Visited>
    ensures result_value { step_count result ≡ well_formed_steps text.now tree.now }
    ensures meets { Meets result (unpack tree.now) }
{
    visit_list(text, tree, MAX_NESTING)
}

// Whether these records are a list of nodes in which groups are nested at most `depth` deep, and if so how many steps
// they are and what unrolling them meets.
#[cycle(visit_group_visit_list)]
fn visit_list(text: &[u8], list: &[u8], depth: usize) -> Option<Visited>
    ensures result_value { step_count result ≡ formed_count text.now depth list.now }
    ensures meets { Meets result (unpack list.now) }
{
    let mut t = list;
    // Leaves, which most nodes are, are added without capping: a list has fewer bytes than 2^63, so that ones cannot
    // bring the sum past 64 bits.
    let mut count = 0;
    let mut met = NONE;
    while 0 < t.len() {
        if t.len() < RECORD {
            return None;
        }
        if fields::is_group(t) {
            let end = RECORD + RECORD * (fields::first(t) as usize + fields::second(t) as usize);
            if t.len() < end {
                return None;
            }
            let group = visit_group(text, t, depth)?;
            count = sum(count, group.steps);
            met = join(met, group.met);
            t = &t[end..];
        } else {
            let overflows = visit_leaf(text, t)?;
            count += LEAF;
            met = join_leaf(met, overflows);
            t = &t[RECORD..];
        }
    }
    Some(Visited {
        steps: cap(count),
        met,
    })
}

// Whether the first node, a group, is in bounds, its lists with one level less are well formed, and it stores the step
// count that they come to; and if so what unrolling it meets.
#[cycle(visit_group_visit_list)]
fn visit_group(text: &[u8], t: &[u8], depth: usize) -> Option<Visited>
    requires t_in_bounds { RECORD + RECORD * (field FIRST t.now + field SECOND t.now) ≤ length t.now }
    requires t_bound { kind_at t.now < 6 }
    ensures result_value { step_count result ≡ first_count text.now depth t.now }
    ensures meets_node { MeetsNode result (first_node t.now) }
{
    if depth == 0 {
        return None;
    }
    if !group_record_ok(t) {
        return None;
    }
    let kind = fields::kind(t);
    let number = fields::number(t);
    let first = fields::first(t);
    let middle = RECORD + RECORD * first as usize;
    let a = visit_list(text, &t[RECORD..middle], depth - 1)?;
    // Without a second list there is nothing more to walk.
    if !kind.is_binary() {
        return compared(
            fields::count(t),
            counts::of_group(kind.number(), number, a.steps, 0),
            of_group(kind.number(), t, a.met, NONE),
        );
    }
    let second = fields::second(t);
    let end = middle + RECORD * second as usize;
    let b = visit_list(text, &t[middle..end], depth - 1)?;
    compared(
        fields::count(t),
        counts::of_group(kind.number(), number, a.steps, b.steps),
        of_group(kind.number(), t, a.met, b.met),
    )
}

// What is found of a group whose lists come to so many steps, where it stores a count.
fn compared(stored: u64, steps: u64, met: Refusals) -> Option<Visited>
    ensures { result ≡ pick (eqb stored steps) (Some (record { steps = steps; met = met })) None }
{
    (stored == steps).then_some(Visited { steps, met })
}

// Whether the first record, that of a group, is what packing writes of a group with that step count, and its multiplier
// is in bounds. Whether the count is right, only its lists tell.
fn group_record_ok(t: &[u8]) -> bool
    requires in_bounds { RECORD ≤ length t.now }
    requires t_bound { kind_at t.now < 6 }
    ensures { result
        ≡ (same_list (head_record (head_at t.now)) (take RECORD t.now) && multiplier_ok
        (from_bits 32 (field NUMBER t.now))) }
{
    let kind = fields::kind(t);
    let second = fields::second(t);
    let number = fields::number(t);
    if !second_ok(kind, second) {
        return false;
    }
    multiplier_ok(number)
        && same_fields(
            without_parts(kind, fields::first(t), second, number, 0, fields::count(t)),
            fields_at(t),
        )
}

// Only a binary group has a second list.
fn second_ok(kind: Kind, second: u32) -> bool
    requires { kind_number kind < 6 }
    ensures { result ≡ (leb 4 (kind_number kind) || eqb second 0) }
{
    kind.is_binary() || second == 0
}

// Whether the first node, which is no group, overflows: none where it is not what packing writes or not in bounds. Packing
// counts a leaf 1.
fn visit_leaf(text: &[u8], t: &[u8]) -> Option<bool>
    requires in_bounds { RECORD ≤ length t.now }
    requires bound { 6 ≤ kind_at t.now }
    ensures by_index { (depth : ℕ) → is_some result ≡ first_ok text.now depth t.now }
    ensures overflow { IfSome result (λ over. over ≡ overflows_at t.now) }
{
    if !fields::counts_one(t) {
        return None;
    }
    if !leaf_written(t) {
        return None;
    }
    // Compared one by one: after `leaf_written` the compiler then sees which leaves are neither, which a `match` hides from it.
    let kind = fields::kind(t);
    if kind == Kind::Move {
        return move_ok(text, layered_move(t)).then_some(false);
    }
    if kind == Kind::Rotation {
        return rotation_ok(text, rotation(t)).then_some(false);
    }
    Some(overflows(t))
}
