// The line of an answer.
ghost use Rattle.std.specs.Prelude.{◌+◌, ◌*◌, ◌<◌, ◌≤◌, ◌≡◌, [], ◌++◌, length};

use crate::hex::glyph;
use std::marker::Model;

// Bytes of a line: the longest is `read`, a number, 1,000 digits and ` touched`.
pub const LINE: usize = 1100;

// Decimal digits of the largest number.
pub const DECIMAL: usize = 20;

// Its hexadecimal digits.
pub const HEXADECIMAL: usize = 16;

// The bytes that were put so far. Room for more is asked of the caller.
#[derive(Drop)]
pub struct Line {
    buffer: [u8; LINE],
    len: usize,
}

impl Model for Line {
    ghost use Rattle.std.specs.Prelude.{List, ℕ, ◌≤◌, take};
    ghost use Rattle.vectors.specs.declared.line.TheConstants.{LINE};

    ghost Value = { List ℕ };

    ghost view = { λ l. take l.len l.buffer };

    ghost invariant = { λ l. l.len ≤ LINE };
}

impl Line {
    // The empty line.
    pub fn new() -> Line
        ensures { result ≡ [] }
    {
        Line {
            buffer: [0; LINE],
            len: 0,
        }
    }

    // The bytes of the line.
    pub fn bytes(&self) -> &[u8]
        ensures { result.now ≡ self.now }
    {
        &self.buffer[..self.len]
    }

    // Puts `piece`.
    pub fn put(&mut self, piece: &[u8])
        requires { length self.old + length piece.now ≤ LINE }
        ensures { self.new ≡ self.old ++ piece.now }
    {
        let end = self.len + piece.len();
        self.buffer[self.len..end].copy_from_slice(piece);
        self.len = end;
    }

    // Puts bytes in hexadecimal.
    pub fn put_bytes(&mut self, bytes: &[u8])
        requires { length self.old + 2 * length bytes.now ≤ LINE }
        ensures { length self.new ≡ length self.old + 2 * length bytes.now }
    {
        for byte in bytes {
            self.put(&[glyph(*byte / 16), glyph(*byte % 16)]);
        }
    }

    // Puts a number in decimal.
    pub fn put_decimal(&mut self, n: u64)
        requires { length self.old + DECIMAL ≤ LINE }
        ensures { length self.new ≤ length self.old + DECIMAL }
    {
        self.put_digits::<DECIMAL>(n, 10, 1);
    }

    // Puts a number in six hexadecimal digits, or in as many as it takes.
    pub fn put_hex(&mut self, n: u64)
        requires { length self.old + HEXADECIMAL ≤ LINE }
        ensures { length self.new ≤ length self.old + HEXADECIMAL }
    {
        self.put_digits::<HEXADECIMAL>(n, 16, 6);
    }

    // Puts the last N digits of a number without the zeros in front, but for those among the last `least` digits.
    // By hand, since `write!` is no plainer: `write_str` may not ask for room, so each caller would have to take an error
    // apart that never comes.
    fn put_digits<const N: usize>(&mut self, n: u64, base: u64, least: usize)
        requires room { length self.old + N ≤ LINE }
        requires positive { 0 < base }
        requires hexadecimal { base ≤ 16 }
        requires within { least ≤ N }
        ensures { length self.new ≤ length self.old + N }
    {
        let mut all = [0u8; N];
        let digits = &mut all[..];
        let mut rest = n;
        for digit in digits.iter_mut().rev() {
            *digit = glyph((rest % base) as u8);
            rest /= base;
        }
        let spare = N - least;
        let zeros = digits[..spare]
            .iter()
            .position(|digit| *digit != b'0')
            .unwrap_or(spare);
        self.put(&digits[zeros..]);
    }
}
