//! Prints the tables of turned places from the formula, a line for each edge from 4 to 6.
#![tactic(auto)]

use std::io;

fn main(rt: HostRuntime) -> io::Result<()> {
    let text = turning_lines::table_lines();
    rt.write_all(&text)
}
