// How a trail is written as clauses, and which assignments satisfy them: definitions and their theorem, no code.

#![tactic(auto)]
