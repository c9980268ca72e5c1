// Laws of the model's plain helpers, and the finished form by runs of pages. They are in proofs/.
#![tactic(auto)]
