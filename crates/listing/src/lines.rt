// The lines of a listing: a label or a place, one space, a field and a newline.
ghost use Rattle.std.specs.Prelude.{◌≡◌, false, [], ℕ, ◌≤◌, ◌<◌, length};
ghost use Rattle.std.proofs.Math.Option.{some};
ghost use Rattle.std.proofs.Math.ListN.{get_elem?};
ghost use Rattle.notation.specs.Numbers.{show};
ghost use Rattle.notation.specs.Refusals.{refusal};
ghost use Rattle.notation.specs.Tree.{Leaf};
ghost use Rattle.notation.specs.Packed.{unpack};
ghost use Rattle.notation.specs.Meaning.{step_of};
ghost use Rattle.notation.specs.Invert.{undo};
ghost use Rattle.notation.specs.Print.{put_step};
ghost use Rattle.notation.specs.Entries as entries;
ghost use Rattle.notation.specs.Lister as rule;
ghost use Rattle.notation.specs.Demands.{printed_inverse};
ghost use Rattle.laws.specs.Unrolled.{flat};
ghost use Rattle.checked.specs.Checked.{Counted};
ghost use Rattle.display.specs.Written.{Wrote};
ghost use Rattle.listing.specs.Listing.{MAX-TREE as max_tree};

use checked::check;
use display::Printer;
use expand::seek::seek;
use record::RECORD;

// Bytes of a text that is listed, and of its tree, which has at most a record for each of them.
pub const MAX_INPUT: usize = 3072;

pub const MAX_TREE: usize = RECORD * MAX_INPUT;

// Puts a line whose field is a refusal.
pub fn refused_line<'a>(printer: Printer<'a>, label: &[u8], number: u8) -> Printer<'a>
    ensures { Wrote printer.entry result (rule.line label.now (rule.field (refusal number))) }
{
    printer
        .put_bytes(label)
        .put_bytes(b" refused ")
        .put_number(number as u32)
        .put(b'\n')
}

// Puts a line whose field is a number.
pub fn number_line<'a>(printer: Printer<'a>, label: &[u8], n: u32) -> Printer<'a>
    ensures { Wrote printer.entry result (rule.line label.now (show n [])) }
{
    printer.put_bytes(label).put(b' ').put_number(n).put(b'\n')
}

// Puts a line whose field is a tree, or the refusal of one that is not well formed.
pub fn tree_line<'a>(printer: Printer<'a>, label: &[u8], text: &[u8], tree: &[u8]) -> Printer<'a>
    ensures { Wrote printer.entry result
        (rule.line label.now (rule.field (entries.display text.now tree.now))) }
{
    match check(text, tree) {
        Ok(_) => printer
            .put_bytes(label)
            .put(b' ')
            .put_nodes(text, tree)
            .put(b'\n'),
        Err(refusal) => refused_line(printer, label, refusal.number()),
    }
}

// Puts the line of the shallow inverse.
pub fn inverse_line<'a>(printer: Printer<'a>, label: &[u8], text: &[u8], tree: &[u8]) -> Printer<'a>
    requires { length tree.now ≤ max_tree }
    ensures { Wrote printer.entry result
        (rule.line label.now (rule.field (printed_inverse text.now tree.now))) }
{
    let mut inverse = [0u8; MAX_TREE];
    match entries::inv(text, tree, &mut inverse) {
        Ok(size) => {
            let end = size as usize;
            tree_line(printer, label, text, &inverse[0..end])
        }
        Err(refusal) => refused_line(printer, label, refusal.number()),
    }
}

// Puts the line of the step at a place: its record is found, and printed as a list of one node.
pub fn step_line<'a>(printer: Printer<'a>, text: &[u8], tree: &[u8], place: u64) -> Printer<'a>
    requires { (n : ℕ) × Counted text.now tree.now n × (place < n) }
    ensures { (x : Leaf) → get_elem? (flat undo false (unpack tree.now)) place ≡ some x →
        Wrote printer.entry result (rule.line (show place []) (put_step (step_of text.now x) [])) }
{
    let mut step = [0u8; RECORD];
    seek(tree, place, &mut step);
    printer
        .put_number(place as u32)
        .put(b' ')
        .put_nodes(text, &step)
        .put(b'\n')
}
