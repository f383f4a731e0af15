// Layer ranges of a move: `LayerPrefixContents::to_ranges` and `simplify` of the Rust's unspanned.rs, and their
// complement behind a tilde.

#![tactic(auto)]

pub mod around;
pub mod reach;
pub mod unspanned;

pub use unspanned::simplify;
