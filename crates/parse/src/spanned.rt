// Reading a whole text: `parse_notation` of the Rust's spanned.rs.
ghost use Rattle.std.specs.Prelude.{◌≡◌};
ghost use Rattle.notation.specs.Entries as rule;

use crate::nesting::nesting_ok;
use crate::node::node_list;
use charsets::is_utf8;
use notation::features::Features;
use notation::limits::MAX_TEXT;
use notation::refusals::Refusal;
use record::RECORD;
use tally::fill_counts;

// The tree of a text, written to the front of `tree`; the answer is its size in bytes. A refusal leaves the buffer as it
// was, so the text is read twice: first to measure, then to write. Step counts come last.
pub fn parse_notation(text: &[u8], features: Features, tree: &mut [u8]) -> Result<u64, Refusal>
    ensures { rule.lent result tree.new ≡ rule.parse_notation features text.now tree.old }
{
    if MAX_TEXT < text.len() {
        return Err(Refusal::TooLong);
    }
    if !is_utf8(text) {
        return Err(Refusal::NotUtf8);
    }
    if !nesting_ok(text) {
        return Err(Refusal::TooNested);
    }
    let measured = node_list(text, 0, features, &mut tree[0..0], 0, 0);
    if measured.next < text.len() {
        return Err(Refusal::NotNotation);
    }
    let size = RECORD * measured.slot;
    if tree.len() < size {
        return Err(Refusal::NoRoom);
    }
    node_list(text, 0, features, &mut tree[0..size], 0, 0);
    fill_counts(&mut tree[0..size]);
    Ok(size as u64)
}
