// The first node of a packed list.
ghost use Rattle.std.specs.Prelude.{◌≡◌, ◌<◌, length};
ghost use Rattle.notation.specs.Tree.{Node, Leaf};
ghost use Rattle.laws.specs.Packed.{Packed};
ghost use Rattle.nodes.specs.Nodes.{IsNode, FirstNode, Lists};

use record::{RECORD, fields};

// Where the first node of the list ends: past its record and those of its lists.
pub fn node_end(list: &[u8]) -> usize
    requires packed { Packed list.now }
    requires list_nonzero { 0 < length list.now }
    ensures { FirstNode list.now result }
{
    RECORD * (1 + (fields::first(list) as usize + fields::second(list) as usize))
}

// Where the first list of a node ends and the second begins.
pub fn first_end(node: &[u8]) -> usize
    requires { (n : Node Leaf) × IsNode node.now n }
    ensures { Lists node.now result }
{
    RECORD + RECORD * fields::first(node) as usize
}
