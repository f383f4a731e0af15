// How many steps a list has, a group by what it stores: what stands inside it is not looked at.
ghost use Rattle.std.specs.Prelude.{◌≡◌, ◌≤◌};
ghost use Rattle.notation.specs.Packed.{unpack};
ghost use Rattle.notation.specs.Counts as rule;
ghost use Rattle.notation.specs.Entries.{MAX-STEPS};
ghost use Rattle.laws.specs.Packed.{Packed};

use nodes::node_end;
use record::{RECORD, fields};

// Adds up how many steps the nodes of a list have.
pub fn count(list: &[u8]) -> u64
    requires packed { Packed list.now }
    requires list_bound { rule.count (unpack list.now) ≤ MAX-STEPS }
    ensures { result ≡ rule.count (unpack list.now) }
{
    let mut t = list;
    let mut steps = 0;
    while 0 < t.len() {
        // A leaf, which most nodes are, is one record and one step: neither its count nor its lists need be read.
        if fields::is_leaf(t) {
            steps += 1;
            t = &t[RECORD..];
        } else {
            steps += fields::count(t);
            let end = node_end(t);
            t = &t[end..];
        }
    }
    steps
}
