// The listing of a text, as the lister program writes it (document 01).

#![tactic(auto)]

pub mod input;
pub mod lines;
pub mod whole;

pub use whole::{MAX_LISTING, MAX_READ, list, list_whole};
