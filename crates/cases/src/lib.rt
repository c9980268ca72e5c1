// The cases are in specs/, the claim that they hold in proofs/.
#![tactic(auto)]
