// Refusal 3: brackets counted before a text is read, so that a reader which follows them nests no deeper than the limit.
ghost use Rattle.std.specs.Prelude.{◌≡◌, ◌||◌, ◌≤◌, eqb, length, count_by};
ghost use Rattle.notation.specs.Entries as rule;

use notation::limits::MAX_NESTING;

// So many bytes are counted at once.
const BLOCK: usize = 32;

// Counts the bytes that are one of the two. In a loop, which the compiler makes one comparison of 16 bytes at a time:
// `filter` and `count` were slower, since it leaves them byte by byte.
fn count(bytes: &[u8], round: u8, square: u8) -> usize
    requires { length bytes.now ≤ rule.MAX-TEXT }
    ensures { result ≡ count_by (λ b. eqb b round || eqb b square) bytes.now }
{
    let mut n = 0;
    for &b in bytes {
        n += (b == round || b == square) as usize;
    }
    n
}

// Whether no starting part of the text has over 64 more of `(` `[` than of `)` `]`. Brackets are counted by blocks, in
// which the machine need not guess; only where a block opens so many that 64 could be passed is the text asked at each
// byte.
pub fn nesting_ok(text: &[u8]) -> bool
    requires { length text.now ≤ rule.MAX-TEXT }
    ensures { result ≡ rule.nesting_ok 0 0 text.now }
{
    let mut opened: usize = 0;
    let mut closed: usize = 0;
    let mut t = text;
    while let Some((block, rest)) = t.split_first_chunk::<BLOCK>() {
        let more = count(block, b'(', b'[');
        if closed + MAX_NESTING < opened + more {
            return scan_ok(text);
        }
        opened += more;
        closed += count(block, b')', b']');
        t = rest;
    }
    if closed + MAX_NESTING < opened + t.len() {
        return scan_ok(text);
    }
    true
}

// Whether the nesting is within the limit, found byte by byte.
fn scan_ok(text: &[u8]) -> bool
    requires { length text.now ≤ rule.MAX-TEXT }
    ensures { result ≡ rule.nesting_ok 0 0 text.now }
{
    let mut opened: usize = 0;
    let mut closed: usize = 0;
    for &b in text {
        match b {
            b'(' | b'[' => {
                opened += 1;
                if closed + MAX_NESTING < opened {
                    return false;
                }
            }
            b')' | b']' => closed += 1,
            _ => {}
        }
    }
    true
}
