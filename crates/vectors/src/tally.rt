//! The count of what is alike.
ghost use Rattle.std.specs.Prelude.{◌≡◌, true, false, Ok};

use crate::frames::{Frames, UnknownKind};
use std::fmt;

/// How many vectors were replayed, how many gave what they say, and where the last that did not stands in its file.
#[derive(Clone, Copy, Debug, PartialEq, Eq)]
pub struct Tally {
    pub seen: u64,
    pub alike: u64,
    pub other: usize,
}

impl Tally {
    pub fn new() -> Self
        ensures { (result.seen ≡ 0) × ((result.alike ≡ 0) × (result.other ≡ 0)) }
    {
        Tally {
            seen: 0,
            alike: 0,
            other: 0,
        }
    }

    /// Counts one more, which stands at `at`.
    pub fn add(&mut self, is_alike: bool, at: usize)
        ensures alike { is_alike ≡ true → self.new.other ≡ self.old.other }
        ensures different { is_alike ≡ false → (self.new.other ≡ at) × (self.new.alike ≡ self.old.alike) }
    {
        self.seen = self.seen.wrapping_add(1);
        if is_alike {
            self.alike = self.alike.wrapping_add(1);
        } else {
            self.other = at;
        }
    }
}

impl fmt::Display for Tally {
    fn fmt<W: fmt::Write>(&self, f: &mut fmt::Formatter<W>) -> fmt::Result {
        let (seen, alike, other) = (self.seen, self.alike, self.other);
        write!(f, "{alike} of {seen} alike")?;
        if alike != seen {
            write!(f, "\n  the last that differs is at {other}")?;
        }
        Ok(())
    }
}

/// Counts the frames of a file, by a function that tells whether a frame is alike. One of a kind that is not known is not. Where every
/// frame is alike, `other` stays 0.
pub fn replay<F: Fn(&[u8]) -> Result<bool, UnknownKind>>(file: &[u8], is_alike: F) -> Tally
    requires { F.IsAlwaysCallable is_alike }
    ensures { ((frame : _) (answer : _) → F.post is_alike frame answer → answer ≡ Ok true) → result.other ≡ 0 }
{
    let mut tally = Tally::new();
    for frame in Frames::new(file) {
        tally.add(is_alike(frame.bytes).unwrap_or(false), frame.at);
    }
    tally
}
