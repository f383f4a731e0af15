// Where a packed list is parted in two, so that a long one can be gone through by halves.
ghost use Rattle.laws.specs.Packed.{Packed};
ghost use Rattle.nodes.specs.Parted.{Middle};

use crate::walk::node_end;

// Where the list is best parted: the place between two of its nodes that is nearest the middle of its records, the later
// of two that are as near. Of a list of one node or none it is the list's end. Records count and not nodes, since a node
// may be a group with most of the list in it, and halving nodes would then not halve the list.
pub fn middle(list: &[u8]) -> usize
    requires { Packed list.now }
    ensures { Middle list.now result }
{
    let mut t = list;
    let mut at = 0;
    while 0 < t.len() {
        let end = node_end(t);
        // A node is passed while no more stands before it than behind it: then its end is at least as near as its start.
        if t.len() - end < at {
            return at;
        }
        at += end;
        t = &t[end..];
    }
    at
}
