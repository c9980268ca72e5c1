// Why the blocks of an edit, stored one after another, are its ordered list, over any lawful layout. The code that does it is in `edit`.
#![tactic(auto)]
