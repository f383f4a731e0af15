// A case's text, which the input spells as segments `count:bytes;`: the bytes in hexadecimal, repeated `count` times, so
// that a long text fits a short line.
ghost use Rattle.std.specs.Prelude.{◌≤◌, IfOk, length};

use crate::hex;
use crate::hex::Damaged;

// Puts the text that `given` spells at the start of `text`, and answers its length.
pub fn spell(given: &[u8], text: &mut [u8]) -> Result<usize, Damaged>
    ensures { IfOk result (λ n. n ≤ length text.old) }
{
    let mut size = 0;
    for piece in given.split_inclusive(|byte| *byte == b';') {
        let [spelled @ .., b';'] = piece else {
            return Err(Damaged);
        };
        size += segment(spelled, &mut text[size..])?;
    }
    Ok(size)
}

// Spells one segment, without its `;`.
fn segment(given: &[u8], text: &mut [u8]) -> Result<usize, Damaged>
    ensures { IfOk result (λ n. n ≤ length text.old) }
{
    let (count, rest) = hex::field(given, 5)?;
    let [b':', bytes @ ..] = rest else {
        return Err(Damaged);
    };
    let unit = hex::bytes(bytes, text)?;
    repeat(text, unit, count)
}

// Repeats the first `unit` bytes of `text`, until they stand there `count` times, and answers where they end.
fn repeat(text: &mut [u8], unit: usize, count: usize) -> Result<usize, Damaged>
    ensures { IfOk result (λ n. n ≤ length text.old) }
{
    let end = count.checked_mul(unit).ok_or(Damaged)?;
    if text.len() < end {
        return Err(Damaged);
    }
    for i in unit..end {
        text[i] = text[i - unit];
    }
    Ok(end)
}
