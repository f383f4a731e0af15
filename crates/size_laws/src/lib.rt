// No code: proofs/ shows how long printed trees and listings are, by the bytes that they were read from.

#![tactic(auto)]
