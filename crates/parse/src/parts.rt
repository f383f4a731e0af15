// What the readers hand back beside the values of other crates.
use notation::limits;

// The number of the deepest layer, as wide as numbers are read.
pub const MAX_LAYER: u32 = limits::MAX_LAYER as u32;

// An element of a layer set; each number is its 32 bits.
#[derive(Clone, Copy, Debug, PartialEq, Eq)]
pub enum LayerSetElement {
    Single(u32),
    Range(u32, u32),
}
