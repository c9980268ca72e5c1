// The laws of entries, forms, counts, pages, rows, stores and slots, once, over any lawful layout. No code stands here.
#![tactic(auto)]
