// Printing a packed tree: the `Display` of the Rust's unspanned.rs and common.rs.

#![tactic(auto)]

pub mod bound;
mod common;
mod constraints;
mod sets;
pub mod unspanned;
pub mod write;

pub use bound::fits;
pub use unspanned::display;
pub use write::Printer;
