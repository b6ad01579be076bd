// The index of a sheet: which lines use each word. Definitions and theorems alone; the code stands above, in `index_writer` and
// `indexing`.

#![tactic(auto)]
