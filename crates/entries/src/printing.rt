// A tree as text.
ghost use Rattle.std.specs.Prelude.{◌≡◌};
ghost use Rattle.notation.specs.Entries as rule;

use checked::check;
use notation::refusals::Refusal;

// Refusals 1, 2, 6, 5. Where the buffer may be too short, a first run has no room and only measures.
pub fn display(text: &[u8], tree: &[u8], out: &mut [u8]) -> Result<u64, Refusal>
    ensures { rule.lent result out.new ≡ rule.display_entry text.now tree.now out.old }
{
    check(text, tree)?;
    // Most buffers surely suffice; then one run prints.
    if display::fits(tree, out.len()) {
        return Ok(display::display(text, tree, out) as u64);
    }
    let size = display::display(text, tree, &mut []);
    if out.len() < size {
        return Err(Refusal::NoRoom);
    }
    display::display(text, tree, &mut out[0..size]);
    Ok(size as u64)
}
