// The parts of a node.
ghost use Rattle.std.specs.Prelude.{◌≡◌, ◌/◌, ◌≤◌};
ghost use Rattle.notation.specs.Tree.{Leaf, Node};
ghost use Rattle.record.specs.Meaning.{field, kind_at};
ghost use Rattle.nodes.specs.Nodes.{IsNode};
ghost use Rattle.invert.specs.Nodes.{Inner};

use nodes::first_end;
use record::{Kind, RECORD, fields};

// Where the list begins that the deep inverse enters: the only one of a group, the second of a conjugate.
pub fn inner_start(node: &[u8]) -> usize
    requires node { (n : Node Leaf) × IsNode node.now n }
    requires node_bound { kind_at node.now ≤ 5 }
    requires no_commutator { kind_at node.now ≡ 4 → ⊥ }
    ensures { Inner node.now result }
{
    if fields::kind(node) == Kind::Conjugate {
        first_end(node)
    } else {
        RECORD
    }
}
