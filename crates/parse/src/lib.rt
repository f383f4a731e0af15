// Reading: the parts of the notation from an offset of the text on, and a whole text into a packed tree.

#![tactic(auto)]

pub mod leaves;
mod look;
mod nesting;
pub mod node;
pub mod parts;
mod puzzles;
pub mod sets;
pub mod spanned;

pub use leaves::{group_kind, leaf, multiplier};
pub use sets::{constraint_set, layer_set, layer_set_element};
pub use spanned::parse_notation;
