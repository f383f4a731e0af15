// The cases of `hypuz_notation::agree`: features (2 digits), length of each of the four buffers for trees and texts (6
// digits), place (16 digits), length of each of the two for a step (2 digits), then the text's segments.
ghost use Rattle.std.specs.Prelude.{◌+◌, ◌≤◌, ◌≡◌, [], length};
ghost use Rattle.vectors.specs.declared.agreement.TheConstants.{MOST, MOST_STEP};

use crate::hex::Damaged;
use crate::line::{LINE, Line};
use crate::{hex, report, text};
use hypuz_notation::agree;
use hypuz_notation::agreement::Agreement;
use notation::features;
use notation::refusals::Refusal;
use record::RECORD;

// Bytes of the longest buffers that a case may lend: 120 records for each tree and text, and two for each step.
const MOST: usize = RECORD * 120;

const MOST_STEP: usize = RECORD * 2;

// What is asked beside the text.
#[derive(Drop)]
struct Call {
    bits: u32,
    place: u64,
    // Bytes lent for each tree and text, and for each step.
    room: usize,
    step: usize,
    ghost room_fits: { room ≤ MOST },
    ghost step_fits: { step ≤ MOST_STEP },
}

// The answer of the case `given`.
pub fn case(given: &[u8], text: &mut [u8]) -> Result<Line, Damaged> {
    let (bits, given) = hex::field(given, 2)?;
    let (room, given) = hex::field(given, 6)?;
    let (place, given) = hex::field(given, 16)?;
    let (step, spelled) = hex::field(given, 2)?;
    if MOST < room || MOST_STEP < step {
        return Err(Damaged);
    }
    let call = Call {
        bits: u32::try_from(bits)?,
        place: place as u64,
        room,
        step,
    };
    let size = text::spell(spelled, text)?;
    Ok(called(call, &text[..size]))
}

// The call itself, which is lent parts of buffers of its own.
fn called(call: Call, text: &[u8]) -> Line {
    let mut tree = [report::UNTOUCHED; MOST];
    let mut inverse = [report::UNTOUCHED; MOST];
    let mut printed = [report::UNTOUCHED; MOST];
    let mut back = [report::UNTOUCHED; MOST];
    let mut step = [report::UNTOUCHED; MOST_STEP];
    let mut undone = [report::UNTOUCHED; MOST_STEP];
    let found = agree(
        text,
        features::from_bits(call.bits),
        call.place,
        &mut tree[..call.room],
        &mut inverse[..call.room],
        &mut printed[..call.room],
        &mut back[..call.room],
        &mut step[..call.step],
        &mut undone[..call.step],
    );
    let mut line = Line::new();
    put_answers(&mut line, found);
    line.put_bytes(&step[..call.step]);
    line.put(b" ");
    line.put_bytes(&undone[..call.step]);
    for buffer in [&tree, &inverse, &printed, &back] {
        line.put(b" ");
        line.put_hex(report::checksum(&buffer[..call.room]));
    }
    line.put(b"\n");
    line
}

// Puts the eight answers, in their order, at the start of the line.
fn put_answers(line: &mut Line, found: Agreement)
    requires { line.old ≡ [] }
    ensures { length line.new ≤ 176 }
{
    for answer in [
        found.read,
        found.inverse,
        found.printed,
        found.back,
        found.count,
        found.recount,
        found.step,
        found.undone,
    ] {
        put_answer(line, answer);
    }
}

// Puts a value, or the number of a refusal behind a minus, and a space.
fn put_answer(line: &mut Line, answer: Result<u64, Refusal>)
    requires { length line.old + 22 ≤ LINE }
    ensures { length line.new ≤ length line.old + 22 }
{
    match answer {
        Ok(value) => line.put_decimal(value),
        Err(refusal) => {
            line.put(b"-");
            line.put_decimal(refusal.number() as u64);
        }
    }
    line.put(b" ");
}
