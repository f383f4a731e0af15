// The first node of a packed list, the lists of a group and the middle of a list, as the walkers over packed trees take
// them.

#![tactic(auto)]

pub mod halves;
pub mod walk;

pub use halves::middle;
pub use walk::{first_end, node_end};
