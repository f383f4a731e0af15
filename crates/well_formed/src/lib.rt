// Which bytes are a tree over a text, and what unrolling such a tree meets.

#![tactic(auto)]

pub mod leaf;
pub mod refusals;
pub mod walk;

pub use refusals::Refusals;
pub use walk::{Visited, visit};
