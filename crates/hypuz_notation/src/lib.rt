// The public entries by the Rust's names, and what is said of them together: that they agree about a text (demand 3),
// and what a host that calls from C is handed.

#![tactic(auto)]

pub mod agreement;
pub mod host;

pub use agreement::agree;
pub use entries::parts::family_part;
pub use entries::{
    count_steps, display, family, family_refusal, flatten, inv, inv_deep, seek_step, simplify,
};
pub use parse::parse_notation;
