// The sets of characters: `CharSet` of the Rust's charsets.rs, six sets of which family names are made, and the primes.
// The crate `charsets` has the functions.

#[derive(Clone, Copy, Debug, PartialEq, Eq)]
pub enum CharSet {
    // a-z
    LowercaseLatin,
    // A-Z
    UppercaseLatin,
    // The uppercase Greek letters that look unlike Latin ones.
    UppercaseGreek,
    // Such lowercase Greek letters with an ascender or a descender.
    TallLowercaseGreek,
    // Such lowercase Greek letters without one.
    ShortLowercaseGreek,
    // _
    Underscore,
    // The signs that negate a multiplier: the apostrophe, U+2019, U+2032. No family name may hold one.
    Prime,
}
