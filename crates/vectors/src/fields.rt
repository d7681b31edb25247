//! The fields of a frame, one after another.
ghost use Rattle.std.specs.Prelude.{◌≡◌, drop, take};

use std::num::f32_from_bits_with_nan;

/// What is left of a frame, whose fields are read from the front. Numbers have their low byte first. Bytes that there are not are 0.
#[derive(Clone, Copy, Debug)]
pub struct Fields<'a> {
    left: &'a [u8],
}

impl<'a> Fields<'a> {
    /// A frame of which nothing is read.
    pub fn new(frame: &'a [u8]) -> Self
        ensures { result.left.now ≡ frame.now }
    {
        Fields { left: frame }
    }

    /// All that is left.
    pub fn rest(self) -> &'a [u8]
        ensures { result.now ≡ self.entry.left.now }
    {
        let Fields { left } = self;
        left
    }

    /// The next `count` bytes, or all that are left where there are fewer.
    pub fn take(&mut self, count: usize) -> &'a [u8]
        ensures taken { result.now ≡ take count self.old.left.now }
        ensures left { self.new.left.now ≡ drop count self.old.left.now }
    {
        let (taken, left) = self.left.split_at(count.min(self.left.len()));
        self.left = left;
        taken
    }

    /// The next bytes, as many as are asked for.
    fn bytes<const N: usize>(&mut self) -> [u8; N]
        ensures { self.new.left.now ≡ drop N self.old.left.now }
    {
        let mut bytes = [0; N];
        for (byte, given) in bytes.iter_mut().zip(self.take(N)) {
            *byte = *given;
        }
        bytes
    }

    /// The number in the next byte, and so below in the next two, four and eight.
    pub fn u8(&mut self) -> u8
        ensures { self.new.left.now ≡ drop 1 self.old.left.now }
    {
        u8::from_le_bytes(self.bytes())
    }

    pub fn u16(&mut self) -> u16
        ensures { self.new.left.now ≡ drop 2 self.old.left.now }
    {
        u16::from_le_bytes(self.bytes())
    }

    pub fn u32(&mut self) -> u32
        ensures { self.new.left.now ≡ drop 4 self.old.left.now }
    {
        u32::from_le_bytes(self.bytes())
    }

    pub fn u64(&mut self) -> u64
        ensures { self.new.left.now ≡ drop 8 self.old.left.now }
    {
        u64::from_le_bytes(self.bytes())
    }

    /// The float of the pattern in the next four bytes. A NaN's pattern gives a NaN.
    pub fn f32(&mut self) -> f32
        ensures { self.new.left.now ≡ drop 4 self.old.left.now }
    {
        f32_from_bits_with_nan(self.u32())
    }
}
