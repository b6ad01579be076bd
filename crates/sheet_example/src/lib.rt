// Document 01's example sheet, and the theorem that it is accepted: a definition and its proof, no code.

#![tactic(auto)]
