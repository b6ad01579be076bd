// What sealing leaves in a sheet, and that it is right: definitions and theorems alone. The code stands above, in `sealing`.

#![tactic(auto)]
