// The owner's three demands, and their proof: no code.

#![tactic(auto)]
