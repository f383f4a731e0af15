// The cases of `parse::parse_notation`: features (2 digits), length of the lent buffer (6 digits), then the text's
// segments.
use crate::hex::Damaged;
use crate::line::Line;
use crate::{hex, report, text};
use notation::features;

// The answer of the case `given`.
pub fn case(given: &[u8], text: &mut [u8], tree: &mut [u8]) -> Result<Line, Damaged> {
    let (bits, given) = hex::field(given, 2)?;
    let (lent, spelled) = hex::field(given, 6)?;
    let bits = u32::try_from(bits)?;
    let size = text::spell(spelled, text)?;
    let room = lent.min(tree.len());
    Ok(parsed(bits, &text[..size], &mut tree[..room]))
}

// The call itself. `tree` is what is lent.
fn parsed(bits: u32, text: &[u8], tree: &mut [u8]) -> Line {
    tree.fill(report::UNTOUCHED);
    let answer = parse::parse_notation(text, features::from_bits(bits), tree);
    report::answered(answer, 1, tree)
}
