// A change of a sheet that has its index and its report beside it, and what it renews: definitions and theorems alone. The code stands
// above, in `lent_questions`, `renewed_reports` and `changing_indexed`.

#![tactic(auto)]
