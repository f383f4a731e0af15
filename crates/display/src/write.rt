// The printer: bytes and numbers, written where they fit and counted where they do not, so that a run over a part that is
// too short still measures the text.
ghost use Rattle.std.specs.Prelude.{◌≡◌, ◌∷◌, ◌++◌, ◌≤◌};
ghost use Rattle.notation.specs.Basics.{pick};
ghost use Rattle.notation.specs.Numbers.{show, show_signed, from_bits};
ghost use Rattle.display.specs.Most.{MOST as most};

use numbers::signed::{is_negative, magnitude};

// Places are capped here, past the end of every slice, so that no sum wraps.
const MOST: usize = 0x8000_0000_0000_0000;

// Prints into `out`, where `at` is the next place.
#[derive(Drop)]
pub struct Printer<'a> {
    out: &'a mut [u8],
    at: usize,
    ghost in_range: { at ≤ most },
}

impl<'a> Printer<'a> {
    ghost use Rattle.display.specs.Written.{Wrote};

    // Prints from the start of `out` on.
    pub fn new(out: &'a mut [u8]) -> Printer<'a>
        ensures same_reference { result.out.ghost_name ≡ out.entry.ghost_name }
        ensures bytes { result.out.now ≡ out.old }
        ensures place { result.at ≡ 0 }
    {
        Printer::at(out, 0)
    }

    // Prints into `out` from the place `at` on.
    pub fn at(out: &'a mut [u8], at: usize) -> Printer<'a>
        requires { at ≤ most }
        ensures same_reference { result.out.ghost_name ≡ out.entry.ghost_name }
        ensures bytes { result.out.now ≡ out.old }
        ensures place { result.at ≡ at }
    {
        Printer { out, at }
    }

    // The next place, which is how long the text is so far.
    pub fn place(&self) -> usize
        ensures { result ≡ self.now.at }
    {
        self.at
    }

    // Puts a byte where it fits, and counts it where it does not.
    pub fn put(self, byte: u8) -> Printer<'a>
        ensures { Wrote self.entry result (λ rest. byte ∷ rest) }
    {
        let Printer { out, at } = self;
        if at < out.len() {
            out[at] = byte;
            return Printer { out, at: at + 1 };
        }
        Printer {
            out,
            at: (at + 1).min(MOST),
        }
    }

    // Puts a byte where the test holds.
    pub(crate) fn put_if(self, test: bool, byte: u8) -> Printer<'a>
        ensures { Wrote self.entry result (λ rest. pick test (byte ∷ rest) rest) }
    {
        if test { self.put(byte) } else { self }
    }

    // Puts all of `bytes`, byte by byte: `copy_from_slice` needs memmove, which a host of the C archive need not have.
    pub fn put_bytes(self, bytes: &[u8]) -> Printer<'a>
        ensures { Wrote self.entry result (λ rest. bytes.now ++ rest) }
    {
        let Printer { out, at } = self;
        let end = (at + bytes.len()).min(MOST);
        if out.len() < end {
            return Printer { out, at: end };
        }
        for i in 0..bytes.len() {
            out[at + i] = bytes[i];
        }
        Printer { out, at: end }
    }

    // Puts a number in decimal. Most have one digit.
    pub fn put_number(self, n: u32) -> Printer<'a>
        ensures { Wrote self.entry result (show n) }
    {
        if n < 10 {
            return self.put(b'0' + n as u8);
        }
        self.put_long_number(n)
    }

    // Puts a number whose digits are found from the last one on. To call itself for the digits before the last one takes
    // more instructions.
    fn put_long_number(self, n: u32) -> Printer<'a>
        ensures { Wrote self.entry result (show n) }
    {
        let mut digits = [0u8; 10];
        let mut i = 9;
        let mut rest = n;
        while 10 <= rest {
            digits[i] = b'0' + (rest % 10) as u8;
            rest /= 10;
            i -= 1;
        }
        digits[i] = b'0' + rest as u8;
        self.put_bytes(&digits[i..])
    }

    // Puts a number given by its 32 bits.
    pub(crate) fn put_signed(self, bits: u32) -> Printer<'a>
        ensures { Wrote self.entry result (show_signed (from_bits 32 bits)) }
    {
        self.put_if(is_negative(bits), b'-')
            .put_number(magnitude(bits))
    }
}
