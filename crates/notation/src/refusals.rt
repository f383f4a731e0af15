// The refusals by name, as in specs/Refusals: those of document 01's table, and from 13 on those that the requests of
// document 02 add. Where several apply, the first in this order is given.
//   Reading: 1, 2, 3, 4, 5.
//   Trees: 1, 2, 6; then 11, 12, 14, 19, 20, 23; then 7 or 8, whichever the walk meets first; then 9; then 10 (and
//   beside it 21, 22), 13, 15, 16, 17, 18; then the 8 of a step that is taken back; then 5.
ghost use Rattle.std.specs.Prelude.{◌≡◌};
ghost use Rattle.notation.specs.Lending as rule;

use std::error::Error;
use std::fmt;

// Why an entry does nothing. Each has a number of its own, by which a host that calls from C is told.
#[derive(Clone, Copy, Debug, PartialEq, Eq)]
pub enum Refusal {
    TooLong,
    NotUtf8,
    TooNested,
    NotNotation,
    NoRoom,
    NotWellFormed,
    Niss,
    Overflow,
    TooManySteps,
    NoSuchPlace,
    NoSuchLayerCount,
    NoSuchRecord,
    // A step's printed text is wider than a line of the sheet.
    StepTooWide,
    // No cube has so many layers.
    NoSuchCube,
    // A step breaks the regulations.
    BreaksRegulations,
    TooManyToReplay,
    // A step is none of Square-1.
    NotSq1,
    BlockedSlash,
    // A move to be converted has a tilde or layers.
    NotConvertible,
    // A move has a family that converting writes.
    FamilyInUse,
    // Forward at the end.
    AtEnd,
    // Back at the start.
    AtStart,
    // No such record, or that of a group.
    NoSuchLeaf,
}

impl Refusal {
    // The refusal's number in the table.
    pub fn number(self) -> u8
        ensures { result ≡ rule.number self }
    {
        match self {
            Refusal::TooLong => 1,
            Refusal::NotUtf8 => 2,
            Refusal::TooNested => 3,
            Refusal::NotNotation => 4,
            Refusal::NoRoom => 5,
            Refusal::NotWellFormed => 6,
            Refusal::Niss => 7,
            Refusal::Overflow => 8,
            Refusal::TooManySteps => 9,
            Refusal::NoSuchPlace => 10,
            Refusal::NoSuchLayerCount => 11,
            Refusal::NoSuchRecord => 12,
            Refusal::StepTooWide => 13,
            Refusal::NoSuchCube => 14,
            Refusal::BreaksRegulations => 15,
            Refusal::TooManyToReplay => 16,
            Refusal::NotSq1 => 17,
            Refusal::BlockedSlash => 18,
            Refusal::NotConvertible => 19,
            Refusal::FamilyInUse => 20,
            Refusal::AtEnd => 21,
            Refusal::AtStart => 22,
            Refusal::NoSuchLeaf => 23,
        }
    }
}

impl fmt::Display for Refusal {
    fn fmt<W: fmt::Write>(&self, f: &mut fmt::Formatter<W>) -> fmt::Result {
        f.write_str(match self {
            Refusal::TooLong => "the text is too long",
            Refusal::NotUtf8 => "the text is not UTF-8",
            Refusal::TooNested => "groups are nested too deep",
            Refusal::NotNotation => "the text is no notation",
            Refusal::NoRoom => "a buffer is too short",
            Refusal::NotWellFormed => "the tree is not well formed",
            Refusal::Niss => "a NISS group cannot be unrolled",
            Refusal::Overflow => "a number has no opposite",
            Refusal::TooManySteps => "there are too many steps",
            Refusal::NoSuchPlace => "there is no such place",
            Refusal::NoSuchLayerCount => "no axis has so many layers",
            Refusal::NoSuchRecord => "there is no such record",
            Refusal::StepTooWide => "a step is wider than a line",
            Refusal::NoSuchCube => "no cube has so many layers",
            Refusal::BreaksRegulations => "a step breaks the regulations",
            Refusal::TooManyToReplay => "there are too many steps to replay",
            Refusal::NotSq1 => "a step is none of Square-1",
            Refusal::BlockedSlash => "a slash is blocked",
            Refusal::NotConvertible => "a move to be converted has a tilde or layers",
            Refusal::FamilyInUse => "a move has a family that converting writes",
            Refusal::AtEnd => "the place is the end",
            Refusal::AtStart => "the place is the start",
            Refusal::NoSuchLeaf => "there is no such leaf",
        })
    }
}

impl Error for Refusal {}

// Why a call that moves a place does nothing, and the place that was handed in.
#[derive(Clone, Copy, Debug, PartialEq, Eq)]
pub struct NotMoved {
    pub refusal: Refusal,
    pub place: u64,
}
