// No code: what a reader must believe stands in specs/, what follows from it in proofs/.
#![tactic(auto)]
