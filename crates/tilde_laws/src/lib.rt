// No code: proofs/ shows what a tilde comes to for the answers of `simplify` (Tilde in crates/notation/specs): with it
// and without it each layer of the axis is in exactly one of the two, and either is the other's complement.

#![tactic(auto)]
