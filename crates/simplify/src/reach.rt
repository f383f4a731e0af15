// The table that the ranges of a layer set are gathered in: entry i is how far the ranges reach that begin at layer i, 0
// where none does. The index sorts the ranges, and of those that begin at one layer only the longest counts.
ghost use Rattle.std.specs.Prelude.{◌≡◌, not, ◌==◌, ◌++◌, ◌+◌, ◌*◌, ◌≤◌, ◌<◌, length, drop, get_or, position};
ghost use Rattle.std.proofs.lemmas.List.Edits.{sets};
ghost use Rattle.notation.specs.Numbers.{big_endian};
ghost use Rattle.notation.specs.Entries.{range_bytes};
ghost use Rattle.layer.specs.Meaning as meaning;
ghost use Rattle.simplify.specs.Reach as table;

use layer::{Layer, LayerRange};
use notation::limits::RANGE;
use numbers::big_endian::write;

// Gathers one range.
pub fn mark(reach: &mut [u16], range: LayerRange)
    requires { range.min.0 < length reach.old }
    ensures { reach.new ≡ table.marked (meaning.range range) reach.old }
{
    let low = range.min.0 as usize;
    reach[low] = reach[low].max(range.max.0);
}

// Turns the table over: each layer that no range has becomes a range of its own, and no other layer begins one.
pub fn turn_over(reach: &mut [u16])
    requires { length reach.old ≤ 65536 }
    ensures { reach.new ≡ table.turned_over 0 0 reach.old }
{
    // How far the ranges reach that begin at layer i or before it.
    let mut far: u16 = 0;
    for (i, entry) in reach.iter_mut().enumerate() {
        far = far.max(*entry);
        *entry = if (far as usize) < i { i as u16 } else { 0 };
    }
}

// How many entries stand before the first at which a range begins; none where none begins.
fn before_start(reach: &[u16]) -> Option<usize>
    ensures { result ≡ position (λ far. not (far == 0)) reach.now }
{
    reach.iter().position(|far| *far != 0)
}

// The first layer from `at` on where a range begins; none where none begins.
fn next_start(reach: &[u16], at: usize) -> Option<usize>
    ensures { table.NextStart reach.now at result }
{
    let rest = reach.get(at..)?;
    Some(at + before_start(rest)?)
}

// The last layer of the run that begins at `low`. The layer after it belongs to no range.
fn run_end(reach: &[u16], low: usize) -> u16
    requires reaches { table.Reaches reach.now }
    requires low_in_bounds { (low < length reach.now) × (0 < get_or reach.now low 0) }
    ensures { table.IsRun reach.now low result }
{
    let mut high = reach[low];
    for i in low + 1..reach.len() {
        if (high as usize) + 1 < i {
            return high;
        }
        high = high.max(reach[i]);
    }
    high
}

// The runs of a table, by depth.
#[derive(Clone, Copy)]
pub struct Runs<'a> {
    reach: &'a [u16],
    // Where the next run is looked for.
    at: usize,
    ghost reaches: { table.Reaches reach.now },
}

impl<'a> Runs<'a> {
    // All the runs.
    pub fn new(reach: &'a [u16]) -> Runs<'a>
        requires { table.Reaches reach.now }
        ensures table { result.reach.now ≡ reach.now }
        ensures start { result.at ≡ 0 }
    {
        Runs { reach, at: 0 }
    }
}

impl<'a> Iterator for Runs<'a> {
    ghost use Rattle.std.specs.Iterator.{YieldsFirstBy, item_count};

    type Item = LayerRange;

    ghost next_gives = { YieldsFirstBy meaning.range (λ runs. table.runs_from runs.reach.now runs.at) };

    ghost remaining = { item_count (λ runs. table.runs_from runs.reach.now runs.at) };

    fn next(&mut self) -> Option<LayerRange> {
        let low = next_start(self.reach, self.at)?;
        let high = run_end(self.reach, low);
        self.at = high as usize + 2;
        Some(LayerRange {
            min: Layer(low as u16),
            max: Layer(high),
        })
    }
}

// How many runs there are.
pub fn count_runs(reach: &[u16]) -> usize
    requires { table.Reaches reach.now }
    ensures { result ≡ length (table.runs_from reach.now 0) }
{
    Runs::new(reach).count()
}

// Writes a range over the four bytes from `at` on.
pub fn write_range(out: &mut [u8], at: usize, range: LayerRange)
    requires { at + 4 ≤ length out.old }
    ensures { out.new ≡ sets out.old at (big_endian 2 range.min.0 ++ big_endian 2 range.max.0) }
{
    // Two calls and no array: the two fields of two bytes are written as they are named.
    write::<2>(out, at, range.min.0 as u64);
    write::<2>(out, at + 2, range.max.0 as u64);
}

// Writes the runs one after another.
pub fn write_runs(reach: &[u16], out: &mut [u8])
    requires reaches { table.Reaches reach.now }
    requires reach_in_bounds { 4 * length (table.runs_from reach.now 0) ≤ length out.old }
    ensures { out.new
        ≡ range_bytes (table.runs_from reach.now 0) ++ drop (4 * length (table.runs_from reach.now 0))
        out.old }
{
    for (k, run) in Runs::new(reach).enumerate() {
        write_range(out, RANGE * k, run);
    }
}
