// No code: proofs/ shows that the two definitions of a well-formed tree, WellFormed and Clauses in
// crates/notation/specs, are equal.

#![tactic(auto)]
