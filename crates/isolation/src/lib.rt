// Document 02, item 13: the definitions are in specs/, the theorems in proofs/; `Neighbours` is the one to open first.
#![tactic(auto)]
