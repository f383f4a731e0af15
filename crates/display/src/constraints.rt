// Constraint sets, printed as they stand in the text but for the white space.
ghost use Rattle.std.specs.Prelude.{◌++◌};
ghost use Rattle.display.specs.Written.{Wrote};
ghost use Rattle.display.specs.Squeezed.{squeezed};

use crate::write::Printer;
use charsets::whitespace_width;

impl<'a> Printer<'a> {
    // Puts the bytes of a part of the text, but those of white space. The offset goes on by hand, since white space has
    // several widths.
    pub(crate) fn put_squeezed(mut self, part: &[u8]) -> Printer<'a>
        ensures { Wrote self.entry result (λ rest. squeezed part.now ++ rest) }
    {
        let mut i = 0;
        while i < part.len() {
            match whitespace_width(part, i) {
                0 => {
                    self = self.put(part[i]);
                    i += 1;
                }
                width => i += width,
            }
        }
        self
    }
}
