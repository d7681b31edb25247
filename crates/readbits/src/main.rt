//! Reads words of T16H5, a line each, and prints the id and turn of each. The input beside it is document 01's example.
#![tactic(auto)]

use std::io;

fn main(rt: HostRuntime) -> io::Result<()> {
    readbits_run::run(&mut rt.reader(), &mut io::writer(&rt))
}
