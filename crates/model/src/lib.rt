// The definitions are in specs/: document 01, as document 02 changes it, and nothing else.
#![tactic(auto)]
