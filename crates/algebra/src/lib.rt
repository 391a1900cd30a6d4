// Laws of whole numbers, sums, lists and rings. It has no code.
#![tactic(auto)]
