// The Rust's charsets.rs: the character sets of family names; and the primes, which are none of theirs. A character is
// its code point.

ghost use Rattle.std.specs.Prelude.{◌≡◌, ◌≤◌};
ghost use Rattle.notation.specs.Basics.{one_of};
ghost use Rattle.notation.specs.Chars.{class_number, classify, curly_prime_codes, is_family_char, is_latin_letter, is_prime, white_space};

use crate::classes::CLASSES;
use notation::char_set::CharSet;

// The primes past the table's end, which word processors write for an apostrophe.
#[tactic(auto, unfolding(notation::specs::Basics::one_of))]
fn is_curly_prime(c: u32) -> bool
    ensures { result ≡ one_of curly_prime_codes c }
{
    matches!(c, 0x2019 | 0x2032)
}

// The class number of a character: 0 outside all classes, else as in the table.
fn class_number(c: u32) -> u8
    ensures { result ≡ class_number (classify c) }
{
    if c < 1024 {
        return CLASSES[c as usize];
    }
    if is_curly_prime(c) { 7 } else { 0 }
}

// The class of a character: `classify` of the Rust's charsets.rs, with which tests/oracle/characters.sh compares it over
// all code points. Reading tells classes by the functions below.
pub fn classify(c: u32) -> Option<CharSet>
    ensures { result ≡ classify c }
{
    match class_number(c) {
        1 => Some(CharSet::LowercaseLatin),
        2 => Some(CharSet::UppercaseLatin),
        3 => Some(CharSet::UppercaseGreek),
        4 => Some(CharSet::TallLowercaseGreek),
        5 => Some(CharSet::ShortLowercaseGreek),
        6 => Some(CharSet::Underscore),
        7 => Some(CharSet::Prime),
        _ => None,
    }
}

// Whether a family name may hold the ASCII character. It is the usual case and does without the table, which the compiler
// builds anew at each read. By two tests: one `matches!` of letters and underscore takes five instructions more.
#[tactic(auto, using(crate::proofs::Sets::ascii_family))]
pub fn is_ascii_family_char(c: u32) -> bool
    requires { c ≤ 127 }
    ensures { result ≡ is_family_char c }
{
    is_latin_letter(c) || c == 0x5f
}

// Whether a family name may hold the character: one that has a class, and is no prime.
pub fn is_family_char(c: u32) -> bool
    ensures { result ≡ is_family_char c }
{
    if c <= 0x7f {
        return is_ascii_family_char(c);
    }
    !matches!(class_number(c), 0 | 7)
}

// Whether the character is a prime: the class's own test of a code point, which the comparison with the Rust calls. Reading
// tells primes by their bytes.
pub fn is_prime(c: u32) -> bool
    ensures { result ≡ is_prime c }
{
    c == 0x27 || is_curly_prime(c)
}

// Whether the character is one of a-z and A-Z.
pub fn is_latin_letter(c: u32) -> bool
    ensures { result ≡ is_latin_letter c }
{
    (0x61..=0x7a).contains(&c) || (0x41..=0x5a).contains(&c)
}

// Whether the ASCII character is white space. Most characters lie above the space, which one test tells.
#[tactic(auto, using(crate::proofs::Spaces::ascii))]
pub fn is_ascii_whitespace(c: u32) -> bool
    requires { c ≤ 127 }
    ensures { result ≡ white_space c }
{
    c <= 0x20 && matches!(c, 0x20 | 0x9..=0xd)
}

// Unicode's White_Space, as Rust's `char::is_whitespace`.
#[tactic(auto, unfolding(notation::specs::Basics::one_of, notation::specs::Chars::white_space))]
pub fn is_whitespace(c: u32) -> bool
    ensures { result ≡ white_space c }
{
    if c <= 0x7f {
        return is_ascii_whitespace(c);
    }
    matches!(
        c,
        0x85 | 0xa0 | 0x1680 | 0x2000..=0x200a | 0x2028 | 0x2029 | 0x202f | 0x205f | 0x3000
    )
}
