// Demand 3 on the code: card, list, slider and undoing agree about a text.
ghost use Rattle.std.specs.Prelude.{◌≡◌, suc, ◌-◌, take};
ghost use Rattle.notation.specs.Entries as rule;
ghost use Rattle.hypuz_notation.specs.Agreement.{Agreed};

use entries::{count_steps, display, inv, seek_step};
use notation::features::Features;
use notation::refusals::Refusal;
use parse::parse_notation;

// What each entry answered.
#[derive(Clone, Copy, Debug, PartialEq, Eq)]
pub struct Agreement {
    // Reading the text, its shallow inverse, that printed, and that read back under the same setting.
    pub read: Result<u64, Refusal>,
    pub inverse: Result<u64, Refusal>,
    pub printed: Result<u64, Refusal>,
    pub back: Result<u64, Refusal>,
    // The steps of the text and those of the inverse read back.
    pub count: Result<u64, Refusal>,
    pub recount: Result<u64, Refusal>,
    // The step at the place, and the one as far from the end of the inverse read back.
    pub step: Result<u64, Refusal>,
    pub undone: Result<u64, Refusal>,
}

// The part of a buffer that an answer says is used.
fn front(answer: Result<u64, Refusal>, buffer: &[u8]) -> &[u8]
    ensures { result.now ≡ take (rule.value (rule.outcome answer)) buffer.now }
{
    let Ok(n) = answer else {
        return &buffer[0..0];
    };
    let size = n as usize;
    if buffer.len() < size {
        return buffer;
    }
    &buffer[0..size]
}

// As far from the end as the place is from the start.
fn from_end(count: Result<u64, Refusal>, place: u64) -> u64
    ensures { result ≡ rule.value (rule.outcome count) - suc place }
{
    match count {
        Ok(n) => n.saturating_sub(place).saturating_sub(1),
        Err(_) => 0,
    }
}

// Reads a text, inverts it, prints the inverse and reads that back under the same setting, counts both, and seeks the
// step at a place and the one at the same place from the end of the inverse. No entry is left out when one before it
// refuses: it then has an empty tree or text.
pub fn agree(
    text: &[u8],
    features: Features,
    place: u64,
    tree: &mut [u8],
    inverse: &mut [u8],
    printed: &mut [u8],
    back: &mut [u8],
    step: &mut [u8],
    undone: &mut [u8],
) -> Agreement
    ensures { Agreed features text.now place result
        (record {
          tree = tree.entry.now;
          inverse = inverse.old;
          printed = printed.old;
          back = back.old;
          step = step.old;
          undone = undone.old;
        })
        (record {
          tree = tree.exit.now;
          inverse = inverse.new;
          printed = printed.new;
          back = back.new;
          step = step.new;
          undone = undone.new;
        }) }
{
    let read = parse_notation(text, features, tree);
    let t = front(read, tree);
    let inverted = inv(text, t, inverse);
    let shown = display(text, front(inverted, inverse), printed);
    let p = front(shown, printed);
    let reread = parse_notation(p, features, back);
    let b = front(reread, back);
    let count = count_steps(text, t);
    let recount = count_steps(p, b);
    let found = seek_step(text, t, place, step);
    let last = from_end(count, place);
    let found_back = seek_step(p, b, last, undone);
    Agreement {
        read,
        inverse: inverted,
        printed: shown,
        back: reread,
        count,
        recount,
        step: found,
        undone: found_back,
    }
}
