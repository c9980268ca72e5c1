// The theorems are in proofs/; `Demands` is the one to open first.
#![tactic(auto)]
