// UTF-8: the characters of a text, by the Unicode Standard's table 3-7, and runs of them.

ghost use Rattle.std.specs.Prelude.{◌≡◌, ℕ, Bool, true, ◌&&◌, ◌+◌, ◌%◌, ◌<◌, ◌≤◌, eqb, length, drop};
ghost use Rattle.notation.specs.Basics.{between, one_of, pick};
ghost use Rattle.notation.specs.Chars.{curly_prime_codes, is_family_char, white_space};
ghost use Rattle.notation.specs.Utf8.{byte_at, char_width, code_point, continuation, run, utf8, width_if};

use crate::chars::{is_ascii_family_char, is_ascii_whitespace, is_family_char, is_whitespace};

// The byte at i; past the end 256, which is no byte: the number that the rule has there (`byte_at` in
// notation/specs/Utf8), so that each row of the table is one comparison of numbers.
fn byte_at(s: &[u8], i: usize) -> u32
    ensures { result ≡ byte_at s.now i }
{
    if i < s.len() { s[i] as u32 } else { 256 }
}

// Whether a byte continues a character.
fn is_continuation(b: u32) -> bool
    ensures { result ≡ continuation b }
{
    matches!(b, 0x80..=0xbf)
}

// How the characters of three or of four bytes begin: the first byte lies from `first` to `last`. After `first` a second
// byte below `least` would be an overlong form, and after `capped` one above `most` a surrogate, or past U+10FFFF.
#[derive(Clone, Copy)]
struct Lead {
    first: u32,
    last: u32,
    least: u32,
    capped: u32,
    most: u32,
}

const THREE: Lead = Lead {
    first: 0xe0,
    last: 0xef,
    least: 0xa0,
    capped: 0xed,
    most: 0x9f,
};

const FOUR: Lead = Lead {
    first: 0xf0,
    last: 0xf4,
    least: 0x90,
    capped: 0xf4,
    most: 0x8f,
};

impl Lead {
    // Whether a character may begin with these two bytes.
    fn begins(self, a: u32, b: u32) -> bool
        ensures { result
            ≡ (between self.first self.last a && between (pick (eqb a self.first) self.least 0x80) (pick (eqb a self.capped) self.most 0xbf) b) }
    {
        let least = if a == self.first { self.least } else { 0x80 };
        let most = if a == self.capped { self.most } else { 0xbf };
        (self.first..=self.last).contains(&a) && (least..=most).contains(&b)
    }
}

// Whether the two bytes are a character. A first byte below c2 would be an overlong form.
fn is_two_bytes(a: u32, b: u32) -> bool
    ensures { result ≡ (between 0xc2 0xdf a && continuation b) }
{
    matches!(a, 0xc2..=0xdf) && is_continuation(b)
}

// Whether the three bytes are a character.
fn is_three_bytes(a: u32, b: u32, c: u32) -> bool
    ensures { result
        ≡ (between 0xe0 0xef a && between (pick (eqb a 0xe0) 0xa0 0x80) (pick (eqb a 0xed) 0x9f 0xbf) b && continuation c) }
{
    THREE.begins(a, b) && is_continuation(c)
}

// Whether the four bytes are a character.
fn is_four_bytes(a: u32, b: u32, c: u32, d: u32) -> bool
    ensures { result
        ≡ (between 0xf0 0xf4 a && between (pick (eqb a 0xf0) 0x90 0x80) (pick (eqb a 0xf4) 0x8f 0xbf) b && continuation c &&
        continuation d) }
{
    FOUR.begins(a, b) && is_continuation(c) && is_continuation(d)
}

// How many bytes the character at `at` takes: 0 where no well-formed one stands there, as the rule has it.
pub fn char_width(s: &[u8], at: usize) -> usize
    ensures { result ≡ char_width (drop at s.now) }
{
    if s.len() <= at {
        return 0;
    }
    let a = byte_at(s, at);
    if a <= 0x7f {
        return 1;
    }
    let b = byte_at(s, at + 1);
    if is_two_bytes(a, b) {
        return 2;
    }
    let c = byte_at(s, at + 2);
    if is_three_bytes(a, b, c) {
        return 3;
    }
    if is_four_bytes(a, b, c, byte_at(s, at + 3)) {
        4
    } else {
        0
    }
}

// The six bits that a continuation byte holds of its character.
fn six_bits(b: u8) -> u32
    ensures { result ≡ b % 64 }
{
    (b % 64) as u32
}

// The code point of the well-formed character at `at`.
pub fn code_point(s: &[u8], at: usize) -> u32
    requires { 0 < char_width (drop at s.now) }
    ensures { result ≡ code_point (drop at s.now) }
{
    let a = s[at] as u32;
    if a <= 0x7f {
        return a;
    }
    let b = six_bits(s[at + 1]);
    if a <= 0xdf {
        return a % 32 * 64 + b;
    }
    let c = six_bits(s[at + 2]);
    if a <= 0xef {
        return a % 16 * 4096 + b * 64 + c;
    }
    let d = six_bits(s[at + 3]);
    a % 8 * 262144 + b * 4096 + c * 64 + d
}

// Which characters a run is made of.
trait Wanted {
    // The characters that are wanted, as the rules have it.
    ghost rule: { ℕ → Bool };

    // Whether the ASCII character is wanted.
    fn is_ascii_wanted(c: u32) -> bool
        requires { c ≤ 127 }
        ensures { result ≡ rule c };

    // Whether the character is wanted.
    fn is_wanted(c: u32) -> bool
        ensures { result ≡ rule c };
}

// White space.
struct WhiteSpace;

// What a family name may hold.
struct FamilyChar;

impl Wanted for WhiteSpace {
    ghost rule = { white_space };

    fn is_ascii_wanted(c: u32) -> bool {
        is_ascii_whitespace(c)
    }

    fn is_wanted(c: u32) -> bool {
        is_whitespace(c)
    }
}

impl Wanted for FamilyChar {
    ghost rule = { is_family_char };

    fn is_ascii_wanted(c: u32) -> bool {
        is_ascii_family_char(c)
    }

    fn is_wanted(c: u32) -> bool {
        is_family_char(c)
    }
}

// The width of a character past ASCII, 0 where none of the wanted ones stands there. Apart, because it is rare: the tests
// for ASCII alone are small enough to stand in their callers.
#[cold]
#[inline(never)]
fn wide_width<W: Wanted>(s: &[u8], at: usize) -> usize
    ensures { result ≡ width_if W.rule (drop at s.now) }
{
    let width = char_width(s, at);
    if width != 0 && W::is_wanted(code_point(s, at)) {
        width
    } else {
        0
    }
}

// How many bytes the character at `at` takes, 0 where none of the wanted ones stands there, as the rule has it.
fn width<W: Wanted>(s: &[u8], at: usize) -> usize
    ensures { result ≡ width_if W.rule (drop at s.now) }
{
    let a = byte_at(s, at);
    if a <= 0x7f {
        return if W::is_ascii_wanted(a) { 1 } else { 0 };
    }
    wide_width::<W>(s, at)
}

// How many bytes the white space character at `at` takes, 0 where none stands there.
pub fn whitespace_width(s: &[u8], at: usize) -> usize
    ensures { result ≡ width_if white_space (drop at s.now) }
{
    width::<WhiteSpace>(s, at)
}

// Whether a prime past the table stands at `at`. By its bytes, without decoding them: reading asks after every multiplier.
pub fn has_curly_prime(s: &[u8], at: usize) -> bool
    requires { at ≤ length s.now }
    ensures { pick result 3 0 ≡ width_if (one_of curly_prime_codes) (drop at s.now) }
{
    matches!(&s[at..], [0xe2, 0x80, 0x99 | 0xb2, ..])
}

// Whether eight bytes stand from `at` on, all of them ASCII. They are joined and tested once, so that no test stands
// between the reads.
fn all_ascii(s: &[u8], at: usize) -> bool
    requires { at ≤ length s.now }
    ensures { result ≡ true → (at + 8 ≤ length s.now) ×
        (utf8 (drop (at + 8) s.now) ≡ utf8 (drop at s.now)) }
{
    let [a, b, c, d, e, f, g, h, ..] = &s[at..] else {
        return false;
    };
    a | b | c | d | e | f | g | h <= 0x7f
}

// Whether the text is well-formed UTF-8. By the rule's own table: `str::from_utf8` promises std's `IsUtf8`, and no lemma
// says that it is the rule's `utf8`. The offset goes on by hand, since it goes on by one, by eight or by a character.
pub fn is_utf8(s: &[u8]) -> bool
    ensures { result ≡ utf8 s.now }
{
    let mut at = 0;
    while at < s.len() {
        if all_ascii(s, at) {
            at += 8;
        } else if s[at] <= 0x7f {
            at += 1;
        } else {
            let width = char_width(s, at);
            if width == 0 {
                return false;
            }
            at += width;
        }
    }
    true
}

// Where the run of wanted characters that begins at `at` ends. The offset goes on by a character, whose widths differ. It goes
// on by one where the character is ASCII, and not by a width that is worked out from it, which the next read would wait for.
fn run_end<W: Wanted>(s: &[u8], at: usize) -> usize
    requires { at ≤ length s.now }
    ensures { result ≡ at + run W.rule (drop at s.now) }
{
    let mut end = at;
    while end < s.len() {
        let a = byte_at(s, end);
        if 0x7f < a {
            let width = wide_width::<W>(s, end);
            if width == 0 {
                return end;
            }
            end += width;
        } else if W::is_ascii_wanted(a) {
            end += 1;
        } else {
            return end;
        }
    }
    end
}

// Where the run of family characters that begins at `at` ends.
pub fn family_end(s: &[u8], at: usize) -> usize
    requires { at ≤ length s.now }
    ensures { result ≡ at + run is_family_char (drop at s.now) }
{
    run_end::<FamilyChar>(s, at)
}

// Where the run of white space that begins at `at` ends.
pub fn whitespace_end(s: &[u8], at: usize) -> usize
    requires { at ≤ length s.now }
    ensures { result ≡ at + run white_space (drop at s.now) }
{
    run_end::<WhiteSpace>(s, at)
}
