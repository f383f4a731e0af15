// The entries that take a tree: each asks `checked::check` first, and its answer and the final bytes of its buffer are
// those of its rule in notation/specs/Entries.

#![tactic(auto)]

pub mod inverses;
pub mod parts;
pub mod printing;
pub mod steps;

pub use inverses::{inv, inv_deep};
pub use parts::{family, family_refusal, simplify};
pub use printing::display;
pub use steps::{count_steps, flatten, seek_step};
