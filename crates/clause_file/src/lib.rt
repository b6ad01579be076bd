// The clause file of a sheet, and demand 3 for its bytes (document 01, "The programs"): definitions and theorems, no code.

#![tactic(auto)]
