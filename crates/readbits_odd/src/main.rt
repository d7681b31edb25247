//! `readbits` on lines that are no words, on every code in every turn, and on an input that ends at the limit of 4,096 bytes
//! with a whole word. A program has one input, so it is one of its own.
#![tactic(auto)]

use std::io;

fn main(rt: HostRuntime) -> io::Result<()> {
    readbits_run::run(&mut rt.reader(), &mut io::writer(&rt))
}
