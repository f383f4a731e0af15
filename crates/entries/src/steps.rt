// The steps of a tree: how many, all of them, or the one at a place.
ghost use Rattle.std.specs.Prelude.{◌≡◌, ℕ};
ghost use Rattle.notation.specs.Refusals.{result as accepted};
ghost use Rattle.notation.specs.Entries as rule;
ghost use Rattle.checked.specs.Checked.{Counted};

use checked::{check, count_checked};
use notation::refusals::Refusal;
use record::RECORD;

// How many steps a tree unrolls into: refusals 1, 2, 6, 7 or 8, 9.
pub fn count_steps(text: &[u8], tree: &[u8]) -> Result<u64, Refusal>
    ensures answer { rule.outcome result ≡ rule.count_steps text.now tree.now }
    ensures counted { (n : ℕ) → rule.outcome result ≡ accepted n → Counted text.now tree.now n }
{
    count_checked(check(text, tree))
}

// The unrolled list, a record for each step: refusals 1, 2, 6, 7 or 8, 9, 5.
pub fn flatten(text: &[u8], tree: &[u8], out: &mut [u8]) -> Result<u64, Refusal>
    ensures { rule.lent result out.new ≡ rule.flatten_entry text.now tree.now out.old }
{
    let counted = count_steps(text, tree);
    let Ok(steps) = counted else {
        return counted;
    };
    let size = RECORD * (steps as usize);
    if out.len() < size {
        return Err(Refusal::NoRoom);
    }
    expand::flatten::flatten(tree, out);
    Ok(size as u64)
}

// The record of the step at a place of the unrolled list: refusals 1, 2, 6, 7 or 8, 9, 10, 5.
pub fn seek_step(text: &[u8], tree: &[u8], place: u64, step: &mut [u8]) -> Result<u64, Refusal>
    ensures { rule.lent result step.new
        ≡ rule.seek_step text.now tree.now place step.old }
{
    let counted = count_steps(text, tree);
    let Ok(steps) = counted else {
        return counted;
    };
    if steps <= place {
        return Err(Refusal::NoSuchPlace);
    }
    if step.len() < RECORD {
        return Err(Refusal::NoRoom);
    }
    expand::seek::seek(tree, place, step);
    Ok(RECORD as u64)
}
