// Whether a text surely fits: a bound on its size that needs no walk.
ghost use Rattle.std.specs.Prelude.{◌≡◌, true, List, ℕ, ◌≤◌, length, take};
ghost use Rattle.notation.specs.Basics.{pick};
ghost use Rattle.notation.specs.Packed.{RECORD as record_size, widths, cut, unpack};
ghost use Rattle.notation.specs.WellFormed as well_formed;
ghost use Rattle.notation.specs.Print as print;
ghost use Rattle.laws.specs.Packed.{Packed};
ghost use Rattle.display.specs.Bound.{allowed};

use numbers::signed::magnitude;
use record::kinds::LayerForm;
use record::{Kind, RECORD, fields};

// `size` where the test holds. Four sums over `if` and `else` would be no plainer.
fn extra(test: bool, size: usize) -> usize
    ensures value { result ≡ pick test size 0 }
    ensures upper_bound { result ≤ size }
{
    if test { size } else { 0 }
}

// A bound on what the first record prints by itself, the space after its node included: 4 bytes are a space, `@` or `~`,
// one digit and `'`, or a scramble move with its space; a group has 3 more, a number past 9 has 9 more digits, layers
// are up to two numbers and a hyphen, a pair up to two numbers with sign.
fn allowance(t: &[u8]) -> usize
    requires { record_size ≤ length t.now }
    ensures { result ≡ allowed (cut widths (take record_size t.now)) }
{
    let n = magnitude(fields::number(t));
    let parts = fields::family(t).size as usize + fields::constraints(t).size as usize;
    4 + parts
        + extra(fields::is_group(t), 3)
        + extra(9 < n, 9)
        + extra(fields::kind(t) == Kind::Pair, 23)
        + extra(fields::layer_form(t) != LayerForm::None, 11)
}

// Whether the tree's text surely fits into so many bytes. A layer set may print longer than it is written (`1-2` as
// `1..2`): then it is not sure.
pub fn fits(tree: &[u8], room: usize) -> bool
    requires { Packed tree.now }
    ensures { result ≡ true → (text : List ℕ) → well_formed.tree_ok text (unpack tree.now) ≡ true →
        length (print.printed text (unpack tree.now)) ≤ room }
{
    let mut t = tree;
    let mut left = room;
    while 0 < t.len() {
        if fields::layer_form(t) == LayerForm::Set {
            return false;
        }
        let Some(rest) = left.checked_sub(allowance(t)) else {
            return false;
        };
        left = rest;
        t = &t[RECORD..];
    }
    true
}
