// n-bit words, and counting below a bound: definitions and their laws, no code.

#![tactic(auto)]
