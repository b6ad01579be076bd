// A list of changes made in one call, and what it leaves and replies: definitions and theorems alone. The code stands above, in
// `applied_changes` and `changing_all`.

#![tactic(auto)]
