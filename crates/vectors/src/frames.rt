//! The frames of a file: each stands behind two bytes of its length.
ghost use Rattle.std.specs.Prelude.{◌-◌, ◌≤◌, length};
ghost use Rattle.std.specs.Iterator.{at_most};

use crate::fields::Fields;
use std::fmt;

/// A number that no kind of frame has.
#[derive(Clone, Copy, Debug, PartialEq, Eq)]
pub struct UnknownKind(pub u8);

impl fmt::Display for UnknownKind {
    fn fmt<W: fmt::Write>(&self, f: &mut fmt::Formatter<W>) -> fmt::Result {
        write!(f, "no kind of frame has the number {}", self.0)
    }
}

/// A frame without its length, and where it begins with it in its file.
#[derive(Clone, Copy, Debug)]
pub struct Frame<'a> {
    pub at: usize,
    pub bytes: &'a [u8],
}

/// The frames of a file, one after another. The last one may be cut off: where it ends is never past the end of the file.
#[derive(Drop)]
pub struct Frames<'a> {
    file: &'a [u8],
    at: usize,
    ghost inside: { at ≤ length file.now },
}

impl<'a> Frames<'a> {
    pub fn new(file: &'a [u8]) -> Self {
        Frames { file, at: 0 }
    }
}

impl<'a> Iterator for Frames<'a> {
    type Item = Frame<'a>;

    ghost remaining = { λ s. at_most (length s.file.now - s.at) };

    fn next(&mut self) -> Option<Frame<'a>> {
        let at = self.at;
        if self.file.len() <= at {
            return None;
        }
        let mut fields = Fields::new(&self.file[at..]);
        let size = usize::from(fields.u16());
        let bytes = fields.take(size);
        self.at = (at + 2 + bytes.len()).min(self.file.len());
        Some(Frame { at, bytes })
    }
}
