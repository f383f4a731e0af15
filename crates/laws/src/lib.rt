// No code: proofs/ holds the laws of the definitions in crates/notation/specs, apart from them so that a change of a law
// rechecks no crate that does not cite it.

#![tactic(auto)]
