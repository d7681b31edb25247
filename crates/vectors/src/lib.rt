//! What the programs that replay vectors share: files of frames, the frames and their fields, the count of what is alike, the generator of
//! numbers and the digest. tools/oracle/README.md has the formats. Buffers are arrays as large as any frame needs: on the heap each would bring
//! an allocator and a `?` into functions that cannot fail.
#![tactic(auto)]

pub mod answers;
pub mod digest;
pub mod fields;
pub mod files;
pub mod floats;
pub mod frames;
pub mod tally;

ghost use Rattle.std.specs.Prelude.{◌≡◌, ◌≤◌};

pub use fields::Fields;
pub use files::{large_buffer, load, report};
pub use tally::{Tally, replay};

/// a times b, as the samples of a plane, but at most `most`.
pub fn product(a: usize, b: usize, most: usize) -> usize
    ensures { result ≤ most }
{
    a.saturating_mul(b).min(most)
}

/// The number after x: xorshift with the shifts 13, 7, 17.
pub fn next_number(x: u64) -> u64 {
    let a = x ^ (x << 13);
    let b = a ^ (a >> 7);
    b ^ (b << 17)
}

/// The generator of numbers, by its last one.
#[derive(Clone, Copy, Debug, PartialEq, Eq)]
pub struct Generator(pub u64);

impl Generator {
    /// The next number.
    pub fn draw(&mut self) -> u64
        ensures { self.new.0 ≡ result }
    {
        let number = next_number(self.0);
        self.0 = number;
        number
    }
}
