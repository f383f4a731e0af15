// No code: proofs/ shows that simplified ranges are told by the layers that they have, and from it what the complement
// of ranges is: each layer of the axis is in one of the two, and complementing twice gives the simplified ranges back.

#![tactic(auto)]
