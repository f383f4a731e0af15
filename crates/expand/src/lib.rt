// Unrolling a packed tree into its steps: how many they are, all of them, or the one at a place.

#![tactic(auto)]

pub mod count;
pub mod flatten;
pub mod seek;
