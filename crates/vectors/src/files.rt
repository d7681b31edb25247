//! Files of frames, read into lent buffers, and the line that is printed of each.
ghost use Rattle.std.specs.Prelude.{◌≡◌, ◌≤◌, length, IfOk};

use crate::Tally;
use std::rt::Files;
use std::{fs, io};

/// 65,536 zeros, which hold any file of frames.
pub fn large_buffer() -> [u8; 65536]
    ensures { 65536 ≡ length result }
{
    [0; 65536]
}

/// Reads the file into `buffer`, and answers how many bytes it has there; what has no room is not read. A path that is no text is refused:
/// `fs::open` takes text alone.
pub fn load<R: Files>(rt: &R, path: &[u8], buffer: &mut [u8]) -> io::Result<usize>
    ensures { IfOk result (λ n. n ≤ length buffer.new) }
{
    let text = str::from_utf8(path).map_err(|_| io::Error::from(io::ErrorKind::InvalidInput))?;
    let mut file = fs::open(rt, text)?;
    filling::fill(&mut file, buffer)
}

/// Prints the line of a file: its name and its count.
pub fn report(rt: &impl Print, name: &[u8], tally: Tally) -> io::Result<()> {
    rt.write_all(name)?;
    println!(rt; " {tally}")
}
