// A sheet with one stated difference changed, and that it is right: definitions and theorems alone. The code stands above, in
// `sheet_changes` and `changing`.

#![tactic(auto)]
