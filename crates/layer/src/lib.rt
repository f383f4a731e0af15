// Layers of an axis and ranges of them: the Rust's layer/.

#![tactic(auto)]

pub mod count;
pub mod range;
pub mod signed;
pub mod unsigned;

pub use count::{AxisLayersInfo, UnclampedLayer};
pub use range::LayerRange;
pub use signed::SignedLayer;
pub use unsigned::Layer;
