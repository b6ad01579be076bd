// Clauses of gates, and what satisfies them (document 01, "Clauses"): definitions and their laws, no code.

#![tactic(auto)]
