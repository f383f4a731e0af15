// Step counts filled in by one pass from the end of a tree. Going backwards, the records of a list are met before the
// group that it belongs to, so each list has a running sum, its tally, until its group takes it. Lists that are open at
// one time have tallies of different numbers, and until a record's count is filled in, the field holds the number of its
// list's tally: in `[R: U] F` the conjugate and F have 0, R has 2 and U has 1.

#![tactic(auto)]

ghost use Rattle.std.specs.Prelude.{◌≡◌, ◌+◌, ◌/◌, ◌≤◌, ◌<◌, length, get_or, set};
ghost use Rattle.notation.specs.Tree.{Tree};
ghost use Rattle.notation.specs.Numbers.{from_bits};
ghost use Rattle.notation.specs.Packed.{RECORD as record_size, pack};
ghost use Rattle.counts.specs.Groups.{group_count};
ghost use Rattle.record.specs.Meaning.{field, with_field, kind_at, NUMBER, COUNT};
ghost use Rattle.tally.specs.Tallies as tallies;

use counts::{of_group, sum};
use notation::limits::MAX_NESTING;
use record::encode::LEAF;
use record::{RECORD, fields};

// The tallies of a group's lists, counted from that of the list in which the group stands. The second list is met first,
// and its sum waits while the first is added up.
pub const OF_FIRST: u64 = 2;

pub const OF_SECOND: u64 = 1;

// Two for each level of nesting, and tally 0 for the tree's own list.
const TALLIES: usize = 1 + 2 * MAX_NESTING;

// Fills in the count of every record, from the last to the first.
pub fn fill_counts(tree: &mut [u8])
    requires { (t : Tree) × tallies.Tallied t tree.old }
    ensures { (t : Tree) → tallies.Tallied t tree.old → tree.new ≡ pack t }
{
    let mut sums = [0; TALLIES];
    for k in (0..tree.len() / RECORD).rev() {
        let at = RECORD * k;
        fill_count(&mut tree[at..at + RECORD], &mut sums);
    }
}

// Fills in one record, the sums being those of what lies behind it, and adds its count to its list's tally. A tally's
// number is the last byte of the field.
fn fill_count(t: &mut [u8], sums: &mut [u64; TALLIES])
    requires { tallies.Open t.old × tallies.Capped sums.old }
    ensures t_after { t.new ≡ with_field COUNT (tallies.own_count t.old sums.old) t.old }
    ensures sums_after { sums.new ≡ tallies.added t.old sums.old }
{
    let tally = (fields::count(t) % 256) as usize;
    if fields::is_group(t) {
        let count = group_count(t, tally, sums);
        sums[tally] = sum(sums[tally], count);
        fields::set_count(t, count);
    } else {
        sums[tally] = sum(sums[tally], LEAF);
        fields::set_count(t, LEAF);
    }
}

// The count of a group by the tallies of its lists, which are complete here and are free again for the lists of other
// groups.
fn group_count(t: &[u8], tally: usize, sums: &mut [u64; TALLIES]) -> u64
    requires record_size_in_bounds { record_size ≤ length t.now }
    requires tally_bound { tally + 2 < tallies.TALLIES }
    requires capped { tallies.Capped sums.old }
    ensures value { result
        ≡ group_count (kind_at t.now) (from_bits 32 (field NUMBER t.now)) (get_or sums.old (tally + 2) 0)
        (get_or sums.old (tally + 1) 0) }
    ensures sums_after { sums.new ≡ set (set sums.old (tally + 2) 0) (tally + 1) 0 }
{
    let first = tally + OF_FIRST as usize;
    let second = tally + OF_SECOND as usize;
    let count = of_group(
        fields::kind(t).number(),
        fields::number(t),
        sums[first],
        sums[second],
    );
    sums[first] = 0;
    sums[second] = 0;
    count
}
