// The nodes of the Rust's spanned.rs that name parts of the text, by offset and size. A multiplier is 32 bits of two's
// complement.

// A part of the text. Both numbers have 24 bits: whoever makes a span promises so.
#[derive(Clone, Copy, PartialEq, Eq)]
pub struct Span {
    pub offset: u32,
    pub size: u32,
}

// The part that stands for none.
pub const NOWHERE: Span = Span { offset: 0, size: 0 };

// The layers before a move's family.
#[derive(Clone, Copy)]
pub enum LayerPrefixContents {
    None,
    Single(u16),
    // From low to high.
    Range(u16, u16),
    // A layer set, with its braces.
    Set(Span),
}

#[derive(Drop)]
pub struct Rotation {
    pub family: Span,
    // With their braces.
    pub constraints: Option<Span>,
    pub multiplier: u32,
}

#[derive(Drop)]
pub struct Move {
    // `~`
    pub inverted: bool,
    pub layers: LayerPrefixContents,
    pub family: Span,
    pub constraints: Option<Span>,
    pub multiplier: u32,
}
