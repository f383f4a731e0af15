// A reader: a text that is borrowed, and a cursor in it. It is what the Rust's rules take as their input. Each function
// takes the struct apart and leaves the work to a function on a slice and a number; the text stays, and the cursor moves
// on.

#![tactic(auto)]

ghost use Rattle.std.specs.Prelude.{◌≡◌, ◌≤◌, eqb, length};
ghost use Rattle.notation.specs.Entries.{MAX-TEXT};
ghost use Rattle.notation.specs.Numbers.{from_bits};
ghost use Rattle.notation.specs.Grammar as rule;
ghost use Rattle.parsed.specs.Reading.{reading};
ghost use Rattle.record.specs.Meaning.{listed};
ghost use Rattle.parse.specs.Meaning as means;
ghost use Rattle.reader.specs.Cursor as cursor;

use charsets::whitespace_end;
use notation::features::Features;
use notation::limits::MAX_TEXT;
use parsed::Parsed;
use record::encode::Fields;

#[derive(Clone, Copy)]
pub struct Reader<'a> {
    text: &'a [u8],
    at: usize,
}

// Where the cursor goes after a leaf.
fn after_leaf(answer: &Option<Parsed<Fields>>, at: usize) -> usize
    ensures { result ≡ cursor.after_leaf at answer.now }
{
    match answer {
        Some(leaf) => leaf.next,
        None => at,
    }
}

impl<'a> Reader<'a> {
    // At the start of a text.
    pub fn new(text: &'a [u8]) -> Reader<'a>
        ensures { (result.text ≡ text.entry) × (result.at ≡ 0) }
    {
        Reader { text, at: 0 }
    }

    // Whether all is read.
    pub fn at_end(self) -> bool
        ensures { result ≡ eqb self.entry.at (length (cursor.text self.entry)) }
    {
        self.at == self.text.len()
    }

    // Moves the cursor past white space.
    pub fn skip_whitespace(&mut self)
        requires { cursor.Inside self.old }
        ensures { cursor.Moves rule.whitespace self.old self.new }
    {
        self.at = whitespace_end(self.text, self.at);
    }

    // Reads a multiplier and answers its 32 bits: 1 where no number is written.
    pub fn multiplier(&mut self, features: Features) -> u32
        requires { cursor.Inside self.old }
        ensures { (cursor.reads (rule.done (from_bits 32 result)) self.new ≡ cursor.reads (rule.multiplier features)
            self.old) × cursor.Moves (rule.multiplier features) self.old self.new }
    {
        let times = parse::multiplier(self.text, self.at, features);
        self.at = times.next;
        times.value
    }

    // Reads a set of constraints: where it ends.
    pub fn constraint_set(&mut self) -> Option<usize>
        requires { cursor.Inside self.old }
        ensures { (means.end_reading (cursor.text self.old) result ≡ means.forget
            (cursor.reads rule.constraint_set self.old)) × cursor.Moves rule.constraint_set self.old self.new }
    {
        let answer = parse::constraint_set(self.text, self.at);
        self.at = answer.unwrap_or(self.at);
        answer
    }

    // Reads a leaf, a node that is no group.
    pub fn leaf(&mut self, features: Features) -> Option<Parsed<Fields>>
        requires { cursor.Inside self.old × (length (cursor.text self.old) ≤ MAX-TEXT) }
        ensures { (reading listed (cursor.text self.old) result ≡ cursor.reads (cursor.leaf features)
            self.old) × cursor.Moves (cursor.leaf features) self.old self.new }
    {
        let answer = parse::leaf(self.text, self.at, features);
        self.at = after_leaf(&answer, self.at);
        answer
    }
}

// What `first_leaf` answers of a text that is not too long.
fn first_leaf_of_short(text: &[u8], features: Features) -> Option<Parsed<Fields>>
    requires { length text.now ≤ MAX-TEXT }
    ensures { reading listed text.now result ≡ cursor.leaf_after_spaces features 0 text.now }
{
    let mut reader = Reader::new(text);
    reader.skip_whitespace();
    reader.leaf(features)
}

// The leaf that a text begins with, after white space. None is read of a text that is too long.
pub fn first_leaf(text: &[u8], features: Features) -> Option<Parsed<Fields>>
    ensures { reading listed text.now result ≡ cursor.first_leaf features text.now }
{
    if MAX_TEXT < text.len() {
        return None;
    }
    first_leaf_of_short(text, features)
}
