// The trial call: what it comes to, and that it equals changing a copy and reporting on it. Definitions and theorems alone: the code
// stands above, in `changing`.

#![tactic(auto)]
