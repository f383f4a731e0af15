// Limits and sizes that more than one crate asks about.

// Bytes of a text.
pub const MAX_TEXT: usize = 16777215;

// Groups one inside another.
pub const MAX_NESTING: usize = 64;

// Steps of an unrolled list.
pub const MAX_STEPS: u64 = 4294967295;

// The number of the deepest layer.
pub const MAX_LAYER: u16 = 32767;

// Bytes of a layer range in a lent buffer: low and high, two each.
pub const RANGE: usize = 4;
