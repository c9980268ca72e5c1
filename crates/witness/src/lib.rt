// A bench that meets the premises of item 13, and a small run on it: the claims speak about something.
#![tactic(auto)]
