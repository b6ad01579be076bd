// Clauses as text, and how a solver reads them (DIMACS CNF). No code: see specs/ and proofs/.

#![tactic(auto)]
