// No code: proofs/ shows what the flag `curly_primes` comes to for whole texts (Primes in crates/notation/specs):
// without it readings are unchanged, with it a text is read as its straight text is without it, offsets apart.

#![tactic(auto)]
