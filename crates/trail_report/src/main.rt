// Reads a sheet from standard input and prints the report of every line, and the totals.
#![tactic(auto)]

use printing::Text;
use std::io;

fn main(rt: HostRuntime) -> io::Result<()> {
    printing::print(Text::Report, &mut rt.stdin(), &mut rt.stdout())
}
