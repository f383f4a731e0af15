// A signed number of 32 bits as its bits in two's complement.
ghost use Rattle.std.specs.Prelude.{◌≡◌, neg_ℤ, unsigned_abs};
ghost use Rattle.notation.specs.Numbers.{to_bits, from_bits};
ghost use Rattle.numbers.specs.Sign.{is_negative};

// The largest number.
pub const MAX: u32 = 2147483647;

// The bits of the smallest number, −2147483648, which are its magnitude too. It has no opposite in 32 bits.
pub const MIN: u32 = MAX + 1;

// Whether the number is below 0.
pub fn is_negative(bits: u32) -> bool
    ensures { result ≡ is_negative (from_bits 32 bits) }
{
    bits.cast_signed().is_negative()
}

// The number without its sign.
pub fn magnitude(bits: u32) -> u32
    ensures { result ≡ unsigned_abs (from_bits 32 bits) }
{
    bits.cast_signed().unsigned_abs()
}

// The opposite number. −2147483648, whose opposite does not fit, stays as it is.
pub fn negate(bits: u32) -> u32
    ensures { result ≡ to_bits 32 (neg_ℤ (from_bits 32 bits)) }
{
    bits.wrapping_neg()
}
