// Hexadecimal digits, in lower case, to numbers and bytes and back.
ghost use Rattle.std.specs.Prelude.{◌<◌, ◌≤◌, IfOk, length};

use std::num::TryFromIntError;

// The input is not what the vectors' script writes.
#[derive(Clone, Copy, Debug, PartialEq, Eq)]
pub struct Damaged;

impl From<TryFromIntError> for Damaged {
    fn from(_: TryFromIntError) -> Damaged {
        Damaged
    }
}

// The value of a digit. The library's `to_digit` takes upper case too, which the script never writes.
fn digit(byte: u8) -> Result<u8, Damaged>
    ensures { IfOk result (λ d. d < 16) }
{
    match byte {
        b'0'..=b'9' => Ok(byte - b'0'),
        b'a'..=b'f' => Ok(byte - b'a' + 10),
        _ => Err(Damaged),
    }
}

// The byte of a hexadecimal digit.
pub fn glyph(value: u8) -> u8
    requires { value < 16 }
{
    b"0123456789abcdef"[value as usize]
}

// The number that the first `n` digits spell, and what follows them.
pub fn field(given: &[u8], n: usize) -> Result<(usize, &[u8]), Damaged> {
    let (digits, rest) = given.split_at_checked(n).ok_or(Damaged)?;
    Ok((number(digits)?, rest))
}

// The number that all of `digits` spell; no field of a case has more than 64 bits.
fn number(digits: &[u8]) -> Result<usize, Damaged> {
    let mut value: usize = 0;
    for byte in digits {
        let d = digit(*byte)?;
        value = value.checked_mul(16).ok_or(Damaged)? + d as usize;
    }
    Ok(value)
}

// Puts the bytes that `digits` spell, two digits to a byte, at the start of `out`, and answers how many they are.
pub fn bytes(digits: &[u8], out: &mut [u8]) -> Result<usize, Damaged>
    ensures { IfOk result (λ n. n ≤ length out.old) }
{
    let (pairs, odd) = digits.as_chunks::<2>();
    if !odd.is_empty() || out.len() < pairs.len() {
        return Err(Damaged);
    }
    for (byte, [high, low]) in out.iter_mut().zip(pairs) {
        *byte = digit(*high)? * 16 + digit(*low)?;
    }
    Ok(pairs.len())
}
