// What every other crate speaks of: the feature settings of the Rust's lib.rs, the small types of its
// common.rs, unspanned.rs and charsets.rs, and in specs/ every rule of document 01.

#![tactic(auto)]

pub mod char_set;
pub mod common;
pub mod features;
pub mod limits;
pub mod refusals;
