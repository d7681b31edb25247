//! `readbits` on more than 4,096 bytes: the limit cuts the line `231BA` after its fourth byte, and it is judged as cut.
//! A program has one input, so it is one of its own.
#![tactic(auto)]

use std::io;

fn main(rt: HostRuntime) -> io::Result<()> {
    readbits_run::run(&mut rt.reader(), &mut io::writer(&rt))
}
