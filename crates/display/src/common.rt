// The parts that nodes share: multipliers, the signs of groups, scramble moves.
ghost use Rattle.std.specs.Prelude.{◌≡◌, ◌∷◌, eqb};
ghost use Rattle.notation.specs.Basics.{pick};
ghost use Rattle.notation.specs.Numbers.{from_bits, show};
ghost use Rattle.notation.specs.Packed.{group_number, binary_number, megaminx_number};
ghost use Rattle.notation.specs.Print.{put_multiplier, put_prefix, put_separator, put_megaminx};
ghost use Rattle.notation.specs.declared.common.GroupKind.{GroupKind};
ghost use Rattle.notation.specs.declared.common.BinaryGroupKind.{BinaryGroupKind};
ghost use Rattle.notation.specs.declared.common.MegaminxScrambleMove.{MegaminxScrambleMove};
ghost use Rattle.record.specs.Kinds.{kind_number};
ghost use Rattle.display.specs.Written.{Wrote};

use crate::write::Printer;
use numbers::signed::{is_negative, magnitude};
use record::Kind;

impl<'a> Printer<'a> {
    // Puts a multiplier's magnitude, which is left out where it is 1.
    fn put_magnitude(self, n: u32) -> Printer<'a>
        ensures { Wrote self.entry result (λ rest. pick (eqb n 1) rest (show n rest)) }
    {
        if n == 1 {
            return self;
        }
        self.put_number(n)
    }

    // Puts a multiplier given by its 32 bits.
    pub(crate) fn put_multiplier(self, bits: u32) -> Printer<'a>
        ensures { Wrote self.entry result (put_multiplier (from_bits 32 bits)) }
    {
        self.put_magnitude(magnitude(bits))
            .put_if(is_negative(bits), b'\'')
    }

    // Puts what stands before the list of a group, by the kind of its record.
    pub(crate) fn put_opening(self, kind: Kind) -> Printer<'a>
        ensures { (k : GroupKind) → kind_number kind ≡ group_number k → Wrote self.entry result
            (λ rest. put_prefix k (40 ∷ rest)) }
    {
        match kind {
            Kind::Simple => self.put(b'('),
            Kind::Macro => self.put(b'!').put(b'('),
            Kind::Simultaneous => self.put(b'&').put(b'('),
            _ => self.put(b'^').put(b'('),
        }
    }

    // Puts what stands between the lists of a commutator or a conjugate, by the kind of its record.
    pub(crate) fn put_separator(self, kind: Kind) -> Printer<'a>
        ensures { (k : BinaryGroupKind) → kind_number kind ≡ binary_number k → Wrote self.entry result
            (put_separator k) }
    {
        match kind {
            Kind::Commutator => self.put(b',').put(b' '),
            _ => self.put(b':').put(b' '),
        }
    }

    // Puts what stands after the last list of a group.
    pub(crate) fn put_closing(self, bracket: u8, multiplier: u32) -> Printer<'a>
        ensures { Wrote self.entry result
            (λ rest. bracket ∷ put_multiplier (from_bits 32 multiplier) rest) }
    {
        self.put(bracket).put_multiplier(multiplier)
    }

    // Puts a scramble move, by the kind of its record.
    pub(crate) fn put_megaminx(self, kind: Kind) -> Printer<'a>
        ensures { (k : MegaminxScrambleMove) → kind_number kind ≡ megaminx_number k → Wrote self.entry result
            (put_megaminx k) }
    {
        match kind {
            Kind::RPlus => self.put(b'R').put(b'+').put(b'+'),
            Kind::RMinus => self.put(b'R').put(b'-').put(b'-'),
            Kind::DPlus => self.put(b'D').put(b'+').put(b'+'),
            _ => self.put(b'D').put(b'-').put(b'-'),
        }
    }
}
