// The text of a sheet's report, and its parts (document 01, "The programs"): definitions and theorems, no code.

#![tactic(auto)]
