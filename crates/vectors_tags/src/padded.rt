//! 8-bit planes with filler: the layouts that vectors are replayed at, a packed picture laid out so, and a painted plane looked at
//! byte by byte.
ghost use Rattle.std.specs.Prelude.{◌≤◌};

use refusals::Frame;
use std::fmt;
use vectors::digest::Digest;
use vectors::next_number;

/// How a picture is laid out.
#[derive(Clone, Copy, Debug, PartialEq, Eq)]
pub enum Layout {
    /// Its lines have no filler.
    Packed,
    /// A zero stands behind each.
    Zero,
    /// Thirteen bytes of 255.
    Full,
    /// As many bytes of noise as the line has pixels.
    Noise,
    /// Seven bytes that go on with the pixels of the next line, as a reader without a pitch would have it.
    NextLine,
}

impl Layout {
    /// The frame of a picture at the layout.
    pub fn frame_of(self, width: usize, height: usize) -> Frame {
        let pixels = width.min(65536);
        let pitch = match self {
            Layout::Packed => width,
            Layout::Zero => pixels + 1,
            Layout::Full => pixels + 13,
            Layout::Noise => pixels * 2,
            Layout::NextLine => pixels + 7,
        };
        Frame {
            width,
            height,
            pitch,
        }
    }

    /// Byte k of a plane: a pixel of the packed picture, or else filler.
    fn byte_at(self, pixels: &[u8], frame: Frame, k: usize) -> u8 {
        let pitch = frame.pitch;
        if pitch == 0 {
            return 0;
        }
        let column = k % pitch;
        let place = (k / pitch)
            .saturating_mul(frame.width)
            .saturating_add(column);
        let byte = pixels.get(place).copied().unwrap_or(0);
        if column < frame.width {
            return byte;
        }
        match self {
            Layout::Zero => 0,
            Layout::Full => 255,
            Layout::Noise => noise_at(k),
            Layout::Packed | Layout::NextLine => byte,
        }
    }

    /// Writes a packed picture into a plane.
    pub fn lay_out(self, pixels: &[u8], frame: Frame, plane: &mut [u8]) {
        for (k, byte) in plane.iter_mut().enumerate() {
            *byte = self.byte_at(pixels, frame, k);
        }
    }
}

impl fmt::Display for Layout {
    fn fmt<W: fmt::Write>(&self, f: &mut fmt::Formatter<W>) -> fmt::Result {
        f.write_str(match self {
            Layout::Packed => "width",
            Layout::Zero => "width + 1",
            Layout::Full => "width + 13",
            Layout::Noise => "2 x width",
            Layout::NextLine => "width + 7",
        })
    }
}

/// How many bytes a plane has, or 65,536 where it has more.
pub fn bytes_of(frame: Frame) -> usize
    ensures { result ≤ 65536 }
{
    let Some(lines) = frame.height.checked_sub(1) else {
        return 0;
    };
    frame
        .pitch
        .saturating_mul(lines)
        .saturating_add(frame.width)
        .min(65536)
}

/// Byte k of noise.
fn noise_at(k: usize) -> u8 {
    (next_number(next_number(k as u64 ^ 0x9e37_79b9_7f4a_7c15)) >> 56) as u8
}

/// A plane that is painted.
#[derive(Drop)]
pub struct Plane<'a> {
    pub frame: Frame,
    pub bytes: &'a mut [u8],
}

impl Plane<'_> {
    /// Before it is painted it holds noise.
    pub fn fill(&mut self) {
        for (k, byte) in self.bytes.iter_mut().enumerate() {
            *byte = noise_at(k);
        }
    }

    /// What is seen of it after a call that answers this number. A refused call paints no pixel: every byte is as before.
    pub fn seen(&self, refusal: u8) -> Seen {
        let Frame { width, pitch, .. } = self.frame;
        let width = if refusal == 0 { width } else { 0 };
        let mut digest = Digest::new();
        let mut is_kept = true;
        for (k, byte) in self.bytes.iter().enumerate() {
            // A plane without a pitch is not painted.
            if k.checked_rem(pitch).is_some_and(|column| column < width) {
                digest.add_u8(*byte);
            } else {
                is_kept &= *byte == noise_at(k);
            }
        }
        Seen {
            digest: digest.value(),
            is_kept,
        }
    }
}

/// What was seen of a plane after it was painted: the digest of its pixels, line by line, and whether every other byte is as before.
#[derive(Clone, Copy, Debug, PartialEq, Eq)]
pub struct Seen {
    pub digest: u64,
    pub is_kept: bool,
}
