// No code: proofs/ holds that no value which the C functions answer reaches 2^56, apart from them since none of their
// proofs cites it.

#![tactic(auto)]
