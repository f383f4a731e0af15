// The moves of single puzzles, which a feature admits: the Megaminx scramble and Square-1.
ghost use Rattle.std.specs.Prelude.{◌≡◌, true, ◌&&◌, ◌||◌, ◌≤◌, ◌<◌, length, drop};
ghost use Rattle.notation.specs.Grammar as rule;
ghost use Rattle.notation.specs.Numbers.{from_bits};
ghost use Rattle.parsed.specs.Reading.{reading};
ghost use Rattle.record.specs.Meaning.{listed};
ghost use Rattle.parse.specs.Meaning as means;

use crate::look::has;
use charsets::whitespace_end;
use notation::common::MegaminxScrambleMove;
use notation::features::Features;
use numbers::decimal::sint;
use numbers::signed::{MAX, MIN};
use parsed::Parsed;
use record::encode::{Fields, megaminx_fields, pair_fields, slash_fields};

// Whether a scramble move stands at `at`: R or D, then ++ or --. The tests are all made first and put together after, so
// that the machine need not guess between them.
pub fn is_scramble(text: &[u8], at: usize) -> bool
    requires { at < length text.now }
    ensures { result ≡ means.scramble_at text.now at }
{
    let r = has(text, at, b'R');
    let d = has(text, at, b'D');
    let plus = has(text, at + 1, b'+') & has(text, at + 2, b'+');
    let minus = has(text, at + 1, b'-') & has(text, at + 2, b'-');
    (r | d) & (plus | minus)
}

// Which scramble move it is, by whether the letter is R and the sign +.
fn scramble_kind(right: bool, plus: bool) -> MegaminxScrambleMove
    ensures { result ≡ means.scramble_kind right plus }
{
    match (right, plus) {
        (true, true) => MegaminxScrambleMove::Rpp,
        (true, false) => MegaminxScrambleMove::Rmm,
        (false, true) => MegaminxScrambleMove::Dpp,
        (false, false) => MegaminxScrambleMove::Dmm,
    }
}

// Reads a scramble move, which was seen.
pub fn megaminx_scramble_move(text: &[u8], at: usize) -> Option<Parsed<Fields>>
    requires { (at < length text.now) × (means.scramble_at text.now at ≡ true) }
    ensures { reading listed text.now result
        ≡ means.scramble_read (rule.megaminx_scramble_move at (drop at text.now)) }
{
    let kind = scramble_kind(has(text, at, b'R'), has(text, at + 1, b'+'));
    Some(Parsed {
        value: megaminx_fields(kind),
        next: at + 3,
    })
}

// Reads a number with white space around it.
fn padded_number(text: &[u8], at: usize) -> Option<Parsed<u32>>
    requires { at ≤ length text.now }
    ensures { reading (from_bits 32) text.now result ≡ rule.padded rule.i32 at (drop at text.now) }
{
    let from = whitespace_end(text, at);
    let Some(number) = sint(text, from, 0, MAX, MIN) else {
        return None;
    };
    Some(Parsed {
        value: number.value,
        next: whitespace_end(text, number.next),
    })
}

// `(u, d)`, whose `(` stands before `at`.
fn pair(text: &[u8], at: usize) -> Option<Parsed<Fields>>
    requires { at ≤ length text.now }
    ensures { reading listed text.now result ≡ means.pair_after at (drop at text.now) }
{
    let Some(u) = padded_number(text, at) else {
        return None;
    };
    if has(text, u.next, b',') {
        let Some(d) = padded_number(text, u.next + 1) else {
            return None;
        };
        if has(text, d.next, b')') {
            return Some(Parsed {
                value: pair_fields(u.value, d.value),
                next: d.next + 1,
            });
        }
    }
    None
}

// Reads a slash or a pair.
fn sq1_move(text: &[u8], at: usize) -> Option<Parsed<Fields>>
    requires { at < length text.now }
    ensures { reading listed text.now result ≡ means.leaf_read (rule.sq1_move at (drop at text.now)) }
{
    if has(text, at, b'/') {
        return Some(Parsed {
            value: slash_fields(),
            next: at + 1,
        });
    }
    if has(text, at, b'(') {
        return pair(text, at + 1);
    }
    None
}

// Reads a slash or a pair where the setting admits it.
pub fn admitted_sq1_move(text: &[u8], at: usize, features: Features) -> Option<Parsed<Fields>>
    requires { at < length text.now }
    ensures { reading listed text.now result
        ≡ means.leaf_read (rule.when features.sq1 rule.sq1_move at (drop at text.now)) }
{
    if features.sq1 {
        sq1_move(text, at)
    } else {
        None
    }
}
