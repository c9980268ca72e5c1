// What the pass over all domains means, block by block: definitions in specs/, their laws in proofs/.
#![tactic(auto)]
