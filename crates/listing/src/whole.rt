// What the lister writes for what it reads.
ghost use Rattle.std.specs.Prelude.{◌≡◌, false, ◌++◌, ◌≤◌, min, length, drop};
ghost use Rattle.notation.specs.Refusals.{result as accepted};
ghost use Rattle.notation.specs.Packed.{unpack};
ghost use Rattle.notation.specs.Invert.{undo};
ghost use Rattle.notation.specs.Entries as entries;
ghost use Rattle.notation.specs.Lister as rule;
ghost use Rattle.laws.specs.Unrolled.{flat};
ghost use Rattle.checked.specs.Checked.{Counted};
ghost use Rattle.display.specs.Written.{MOST as most, Wrote};
ghost use Rattle.listing.specs.Listing.{MAX-TREE as max_tree, AtFront};

use crate::lines::{
    MAX_INPUT, MAX_TREE, inverse_line, number_line, refused_line, step_line, tree_line,
};
use display::Printer;
use entries::count_steps;
use notation::features;
use notation::features::Features;
use notation::refusals::Refusal;
use parse::parse_notation;

// Steps that are listed.
const SHOWN: u64 = 1000;

// Bytes of the first line of an input, which names the features.
const FIRST_LINE: usize = 2;

// Bytes of an input that are worth reading: one more than the longest that is listed, so that a longer one is seen to be
// one.
pub const MAX_READ: usize = FIRST_LINE + MAX_INPUT + 1;

// Bytes that hold every listing.
pub const MAX_LISTING: usize = 4194304;

// The whole listing of an input. It always fits, so it is written at once and nothing is refused.
pub fn list_whole(input: &[u8], out: &mut [u8; MAX_LISTING]) -> usize
    ensures { AtFront (rule.lister input.now) out.old out.new result }
{
    print(out, input)
}

// The whole listing of an input, or refusal 5 where it does not fit. The first run has no room and only measures.
pub fn list(input: &[u8], out: &mut [u8]) -> Result<u64, Refusal>
    ensures { entries.lent result out.new
        ≡ entries.lend (accepted (rule.lister input.now)) out.old }
{
    let mut nothing = [0u8; 0];
    let size = print(&mut nothing, input);
    if out.len() < size {
        return Err(Refusal::NoRoom);
    }
    print(out, input);
    Ok(size as u64)
}

// Prints the listing of an input into `out` from its start and returns its length. Where it does not fit, `out` is only
// measured against: what stands in it is left open.
fn print(out: &mut [u8], input: &[u8]) -> usize
    ensures counts { result ≡ min (length (rule.lister input.now)) most }
    ensures prints { length (rule.lister input.now) ≤ length out.old →
        out.new ≡ rule.lister input.now ++ drop (length (rule.lister input.now)) out.old }
{
    put_whole(out, input).place()
}

// Puts the listing of an input from the start of `out` on.
fn put_whole<'a>(out: &'a mut [u8], input: &[u8]) -> Printer<'a>
    ensures same_reference { result.out.ghost_name ≡ out.entry.ghost_name }
    ensures counts { result.at ≡ min (length (rule.lister input.now)) most }
    ensures prints { length (rule.lister input.now) ≤ length out.old →
        result.out.now ≡ rule.lister input.now ++ drop (length (rule.lister input.now)) out.old }
{
    put_input(Printer::new(out), input)
}

// Puts the listing of an input, whose first line names the features.
fn put_input<'a>(printer: Printer<'a>, input: &[u8]) -> Printer<'a>
    ensures { Wrote printer.entry result (λ rest. rule.lister input.now ++ rest) }
{
    match input {
        [b'w', b'\n', text @ ..] => put_listing(printer, text, features::wca()),
        [b'm', b'\n', text @ ..] => put_listing(printer, text, features::maximal()),
        _ => printer.put_bytes(b"refused input\n"),
    }
}

// Puts the listing of a text. The tree of a text that is not too long always fits.
fn put_listing<'a>(printer: Printer<'a>, text: &[u8], features: Features) -> Printer<'a>
    ensures { Wrote printer.entry result (λ rest. rule.listing features text.now ++ rest) }
{
    if MAX_INPUT < text.len() {
        return printer.put_bytes(b"refused input\n");
    }
    let mut tree = [0u8; MAX_TREE];
    match parse_notation(text, features, &mut tree) {
        Ok(size) => {
            let end = size as usize;
            put_tree(printer, text, &tree[0..end])
        }
        Err(refusal) => refused_line(printer, b"text", refusal.number()),
    }
}

// Puts the lines of a text that was read.
fn put_tree<'a>(printer: Printer<'a>, text: &[u8], tree: &[u8]) -> Printer<'a>
    requires { length tree.now ≤ max_tree }
    ensures { Wrote printer.entry result
        (λ rest. rule.tree_part text.now (accepted tree.now) ++ rest) }
{
    let printed = tree_line(printer, b"text", text, tree);
    let inverted = inverse_line(printed, b"inverse", text, tree);
    put_steps(inverted, text, tree)
}

// Puts the count and the first steps.
fn put_steps<'a>(printer: Printer<'a>, text: &[u8], tree: &[u8]) -> Printer<'a>
    ensures { Wrote printer.entry result
        (λ rest. rule.steps_part text.now (entries.steps text.now tree.now) ++ rest) }
{
    match count_steps(text, tree) {
        Ok(n) => {
            let counted = number_line(printer, b"steps", n as u32);
            step_lines(counted, text, tree, n)
        }
        Err(refusal) => refused_line(printer, b"steps", refusal.number()),
    }
}

// Puts place and step for the first of n steps, as many as are listed.
fn step_lines<'a>(mut printer: Printer<'a>, text: &[u8], tree: &[u8], n: u64) -> Printer<'a>
    requires { Counted text.now tree.now n }
    ensures { Wrote printer.entry result
        (λ rest. rule.step_lines text.now rule.SHOWN 0 (flat undo false (unpack tree.now)) ++ rest) }
{
    for place in 0..n.min(SHOWN) {
        printer = step_line(printer, text, tree, place);
    }
    printer
}
