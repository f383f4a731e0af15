// What stands at an offset of the text, and the parts between two offsets.
ghost use Rattle.std.specs.Prelude.{◌≡◌, ◌&&◌, ◌-◌, ◌+◌, ◌≤◌, eqb, length};
ghost use Rattle.notation.specs.Packed.{family_at};
ghost use Rattle.notation.specs.Entries.{MAX-TEXT};
ghost use Rattle.notation.specs.Tree as tree;
ghost use Rattle.notation.specs.Utf8.{byte_at};
ghost use Rattle.record.specs.Meaning.{span};
ghost use Rattle.record.specs.Range.{FitsSpan};

use record::spanned::Span;

// Whether this byte stands at `at`.
pub fn has(text: &[u8], at: usize, byte: u8) -> bool
    ensures { result ≡ eqb (byte_at text.now at) byte }
{
    at < text.len() && text[at] == byte
}

// Whether these two do.
pub fn has_two(text: &[u8], at: usize, first: u8, second: u8) -> bool
    requires { at ≤ length text.now }
    ensures { result ≡ (eqb (byte_at text.now at) first && eqb (byte_at text.now (at + 1)) second) }
{
    has(text, at, first) && has(text, at + 1, second)
}

// The part of the text from one offset to another.
pub fn span_between(from: usize, to: usize) -> Span
    requires { (from ≤ to) × (to ≤ MAX-TEXT) }
    ensures result_value { span result ≡ tree.span from (to - from) }
    ensures fits_span { FitsSpan (span result) }
{
    Span {
        offset: from as u32,
        size: (to - from) as u32,
    }
}

// The part of the text from one offset to another, for a family: an empty one stands nowhere.
pub fn family_span(from: usize, to: usize) -> Span
    requires { (from ≤ to) × (to ≤ MAX-TEXT) }
    ensures result_value { span result ≡ family_at from (to - from) }
    ensures fits_span { FitsSpan (span result) }
{
    if from == to {
        Span { offset: 0, size: 0 }
    } else {
        span_between(from, to)
    }
}
