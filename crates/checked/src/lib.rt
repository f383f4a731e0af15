// What every entry asks first of a text and a tree, and what every entry that unrolls asks next.

#![tactic(auto)]

ghost use Rattle.std.specs.Prelude.{◌≡◌, ℕ, List, IfOk};
ghost use Rattle.notation.specs.Refusals.{result as accepted};
ghost use Rattle.notation.specs.Lending.{outcome};
ghost use Rattle.notation.specs.Entries as rule;
ghost use Rattle.checked.specs.Checked.{Found, Checks, Counted, checked_steps, steps_of};

use charsets::is_utf8;
use notation::limits::{MAX_STEPS, MAX_TEXT};
use notation::refusals::Refusal;
use well_formed::{Visited, visit};

// What one visit of a text and its tree finds: how many steps the tree counts, capped, and what unrolling it meets; or
// refusal 1, 2 or 6.
pub fn check(text: &[u8], tree: &[u8]) -> Result<Visited, Refusal>
    ensures answer { steps_of result ≡ checked_steps text.now tree.now }
    ensures found { IfOk result (λ v. Found text.now tree.now v.met) }
{
    if MAX_TEXT < text.len() {
        return Err(Refusal::TooLong);
    }
    if !is_utf8(text) {
        return Err(Refusal::NotUtf8);
    }
    let Some(found) = visit(text, tree) else {
        return Err(Refusal::NotWellFormed);
    };
    Ok(Visited {
        steps: found.steps,
        met: found.met,
    })
}

// How many steps a tree unrolls into, by what `check` answered of it: after 1, 2 and 6 come 7 or 8 and then 9. Entries that
// have a refusal of their own between 6 and 7 put it between the two calls.
pub fn count_checked(checked: Result<Visited, Refusal>) -> Result<u64, Refusal>
    ensures answer { (text tree : List ℕ) → Checks text tree checked → outcome result ≡ rule.count_steps text tree }
    ensures counted { (text tree : List ℕ) → Checks text tree checked →
        (n : ℕ) → outcome result ≡ accepted n → Counted text tree n }
{
    let visited = checked?;
    if let Some(refusal) = visited.met.forward {
        return Err(refusal);
    }
    if MAX_STEPS < visited.steps {
        return Err(Refusal::TooManySteps);
    }
    Ok(visited.steps)
}
