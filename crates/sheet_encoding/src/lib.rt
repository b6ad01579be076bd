// A trail as a sheet's bytes: definitions and theorems, no code.

#![tactic(auto)]
