// The joined sheet of two (document 02, W-203): definitions and theorems, no code.

#![tactic(auto)]
