// Layer sets, printed from the part of the text that says them, element by element: an element is put as it is read, and
// white space is left out.
ghost use Rattle.std.specs.Prelude.{◌≡◌, true, List, ◌≤◌, eqb, length};
ghost use Rattle.notation.specs.Utf8.{byte_at};
ghost use Rattle.notation.specs.Layers as layers;
ghost use Rattle.notation.specs.Grammar.{layer_set_element};
ghost use Rattle.notation.specs.Meaning.{or_empty, layer_set_in};
ghost use Rattle.notation.specs.WellFormed.{is_some};
ghost use Rattle.notation.specs.Print as print;
ghost use Rattle.parse.specs.Meaning as means;
ghost use Rattle.display.specs.Written.{Wrote};
ghost use Rattle.display.specs.Sets.{Following};

use crate::write::Printer;
use charsets::whitespace_end;
use parse::layer_set_element;
use parse::parts::LayerSetElement;

impl<'a> Printer<'a> {
    // Puts an element of a layer set. Left out of its callers, it would pass the printer through memory.
    #[inline(always)]
    fn put_element(self, e: LayerSetElement) -> Printer<'a>
        ensures { Wrote self.entry result (print.put_element (means.layer_set_element_of e)) }
    {
        match e {
            LayerSetElement::Single(i) => self.put_signed(i),
            LayerSetElement::Range(i, j) => self.put_signed(i).put(b'.').put(b'.').put_signed(j),
        }
    }

    // Puts the elements after the one that ends at `from`, each with a comma before it.
    fn put_more(mut self, part: &[u8], from: usize) -> Printer<'a>
        requires { from ≤ length part.now }
        ensures { (l : List layers.LayerSetElement) → Following (layer_set_element true) part.now from l →
            Wrote self.entry result (print.put_more print.put_element l) }
    {
        let mut end = from;
        loop {
            let comma = whitespace_end(part, end);
            if !is_comma(part, comma) {
                return self;
            }
            let start = whitespace_end(part, comma + 1);
            let Some(element) = layer_set_element(part, start, true) else {
                return self;
            };
            self = self.put(b',').put_element(element.value);
            end = element.next;
        }
    }

    // Puts a set, with its braces. It stays out of its caller, so that leaves without a set take fewer instructions.
    #[inline(never)]
    pub(crate) fn put_layer_set(self, part: &[u8]) -> Printer<'a>
        requires { is_some (layer_set_in part.now) ≡ true }
        ensures { Wrote self.entry result
            (print.put_braces print.put_element (or_empty (layer_set_in part.now))) }
    {
        let start = whitespace_end(part, 1);
        let Some(element) = layer_set_element(part, start, true) else {
            return self.put(b'{').put(b'}');
        };
        self.put(b'{')
            .put_element(element.value)
            .put_more(part, element.next)
            .put(b'}')
    }
}

// Whether a comma stands at `at`.
fn is_comma(part: &[u8], at: usize) -> bool
    ensures { result ≡ eqb (byte_at part.now at) 44 }
{
    at < part.len() && part[at] == b','
}
