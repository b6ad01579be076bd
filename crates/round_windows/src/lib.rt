// Windows of rounds: which lines each takes, what it costs, and the least. Definitions and theorems alone; the code stands above, in
// `copied_lines`, `window_writer` and `windowing`.

#![tactic(auto)]
