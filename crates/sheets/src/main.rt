//! Paints tags and reads them: every code of every family and of two tables of our own, its four turns and four starts, several cells,
//! misprints, the corners of a plane, and lists of quads, in which those that share their id are refused; then whole sheets of each
//! table, every tag of them alone and in lists, and grids that the painter refuses. Each line counts what is as demand 3 has it, and as
//! tickets 3 and 4 of 02 have sheets and lists. Tables are lent to the readers, and families are read by their numbers too.
#![tactic(auto)]

mod boards;
mod grids;
mod list_readings;
mod single;
mod tags;
mod tried;

use muosleap::detector::check_likeness;
use std::io;
use tried::Tried;
use vectors::Tally;

/// As many bytes as the largest plane has: a tag of side 10 in cells of 64, and one pixel more.
const LARGEST_PLANE: usize = 410881;

/// Whether a table passes the likeness check, so that its own tags are read back.
fn likeness(table: &Tried) -> Tally {
    let mut tally = Tally::new();
    tally.add(check_likeness(table.family, table.codes).is_ok(), 0);
    tally
}

/// The lines of a table.
fn print(rt: &impl Print, table: &Tried, plane: &mut [u8]) -> io::Result<()> {
    println!(rt; "{}", table.name)?;
    println!(rt; "  likeness: {}", likeness(table))?;
    println!(rt; "  every code: {}", single::turns(table, plane))?;
    println!(rt; "  misprinted: {}", single::misprints(table, plane))?;
    println!(rt;
        "  in the plane's corners: {}",
        single::corners(table, plane)
    )?;
    list_readings::print(rt, table, plane)?;
    grids::print(rt, table, plane)
}

fn main(rt: HostRuntime) -> io::Result<()> {
    let mut plane = [0u8; LARGEST_PLANE];
    for table in tried::tables() {
        print(&rt, &table, &mut plane)?;
    }
    Ok(())
}
