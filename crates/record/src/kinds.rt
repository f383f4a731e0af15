// The kinds of records.
ghost use Rattle.std.specs.Prelude.{◌≡◌, ◌<◌, ltb};
ghost use Rattle.notation.specs.Basics.{between};
ghost use Rattle.notation.specs.Packed.{group_number, binary_number, megaminx_number};
ghost use Rattle.record.specs.Kinds.{kind_number, form_number};

use notation::common::{BinaryGroupKind, GroupKind, MegaminxScrambleMove};

// Which node a record is. In the record stands the number of the kind, which is its place in this list.
#[derive(Clone, Copy, PartialEq, Eq)]
pub enum Kind {
    Simple,
    Macro,
    Simultaneous,
    Niss,
    Commutator,
    Conjugate,
    Rotation,
    Move,
    Pause,
    Pair,
    Slash,
    // `R++`, `R--`, `D++` and `D--`.
    RPlus,
    RMinus,
    DPlus,
    DMinus,
    // No record of a tree has number 15.
    Unused,
}

impl Kind {
    // The kind of this number.
    pub fn of_number(n: u8) -> Kind
        requires { n < 16 }
        ensures { kind_number result ≡ n }
    {
        match n {
            0 => Kind::Simple,
            1 => Kind::Macro,
            2 => Kind::Simultaneous,
            3 => Kind::Niss,
            4 => Kind::Commutator,
            5 => Kind::Conjugate,
            6 => Kind::Rotation,
            7 => Kind::Move,
            8 => Kind::Pause,
            9 => Kind::Pair,
            10 => Kind::Slash,
            11 => Kind::RPlus,
            12 => Kind::RMinus,
            13 => Kind::DPlus,
            14 => Kind::DMinus,
            _ => Kind::Unused,
        }
    }

    // Its number.
    pub fn number(self) -> u8
        ensures value { result ≡ kind_number self }
        ensures bound { result < 16 }
    {
        self as u8
    }

    // Whether it is a group, plain or binary.
    pub fn is_group(self) -> bool
        ensures { result ≡ ltb (kind_number self) 6 }
    {
        self.number() < Kind::Rotation.number()
    }

    // Whether it is a leaf, which is no group.
    pub fn is_leaf(self) -> bool
        ensures { result ≡ ltb 5 (kind_number self) }
    {
        Kind::Conjugate.number() < self.number()
    }

    // Whether it is a scramble move of a Megaminx.
    pub fn is_megaminx(self) -> bool
        ensures { result ≡ between 11 14 (kind_number self) }
    {
        matches!(
            self,
            Kind::RPlus | Kind::RMinus | Kind::DPlus | Kind::DMinus
        )
    }

    // Whether it is a group of two lists.
    pub fn is_binary(self) -> bool
        ensures { result ≡ between 4 5 (kind_number self) }
    {
        matches!(self, Kind::Commutator | Kind::Conjugate)
    }
}

impl From<GroupKind> for Kind {
    fn from(k: GroupKind) -> Kind
        ensures { kind_number result ≡ group_number k }
    {
        match k {
            GroupKind::Simple => Kind::Simple,
            GroupKind::Macro => Kind::Macro,
            GroupKind::Simultaneous => Kind::Simultaneous,
            GroupKind::Niss => Kind::Niss,
        }
    }
}

impl From<BinaryGroupKind> for Kind {
    fn from(k: BinaryGroupKind) -> Kind
        ensures { kind_number result ≡ binary_number k }
    {
        match k {
            BinaryGroupKind::Commutator => Kind::Commutator,
            BinaryGroupKind::Conjugate => Kind::Conjugate,
        }
    }
}

impl From<MegaminxScrambleMove> for Kind {
    fn from(k: MegaminxScrambleMove) -> Kind
        ensures { kind_number result ≡ megaminx_number k }
    {
        match k {
            MegaminxScrambleMove::Rpp => Kind::RPlus,
            MegaminxScrambleMove::Rmm => Kind::RMinus,
            MegaminxScrambleMove::Dpp => Kind::DPlus,
            MegaminxScrambleMove::Dmm => Kind::DMinus,
        }
    }
}

// The form of the layers before a move's family. In the record stands its place in this list.
#[derive(Clone, Copy, PartialEq, Eq)]
pub enum LayerForm {
    None,
    Single,
    Range,
    Set,
}

impl LayerForm {
    // The form of this number.
    pub fn of_number(n: u8) -> LayerForm
        requires { n < 4 }
        ensures { form_number result ≡ n }
    {
        match n {
            0 => LayerForm::None,
            1 => LayerForm::Single,
            2 => LayerForm::Range,
            _ => LayerForm::Set,
        }
    }

    // Its number.
    pub fn number(self) -> u8
        ensures value { result ≡ form_number self }
        ensures bound { result < 4 }
    {
        self as u8
    }
}
