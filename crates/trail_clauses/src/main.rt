// Reads a sheet from standard input and prints its clauses for a SAT solver.
#![tactic(auto)]

use printing::Text;
use std::io;

fn main(rt: HostRuntime) -> io::Result<()> {
    printing::print(Text::Clauses, &mut rt.stdin(), &mut rt.stdout())
}
