// Why the whole-table check is right, of every layout. The pass itself, over the words of a board, is in `sound`.
#![tactic(auto)]
