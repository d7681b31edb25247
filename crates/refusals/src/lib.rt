//! What several public entries share: why a call is refused, the structs that describe a plane, the tests of refusal 1, planes
//! that have passed them, and the byte that a pixel stands in.
#![tactic(auto, using(std::proofs::lemmas::Bool::Decides::nat_tests), unfolding(crate::specs::Plane::bad_sides, crate::specs::Plane::bad_plane, crate::specs::Pixels::bad_pitch, crate::specs::Pixels::bad_frame))]

mod picture;
mod refusal;

ghost use Rattle.std.specs.Prelude.{◌≡◌, ◌≤◌};
ghost use Rattle.refusals.specs.Plane.{bad_sides, bad_plane};
ghost use Rattle.refusals.specs.Pixels.{packed_frame, bad_pitch, bad_frame, place_of, SmallFrame};

pub use picture::Picture;
pub use refusal::Refusal;

/// The sides of a plane of floats.
#[derive(Clone, Copy, Debug, PartialEq, Eq)]
pub struct Shape {
    pub width: usize,
    pub height: usize,
}

/// The sides of an 8-bit plane, and its pitch: the bytes from the start of a line to the start of the next. The pitch - width
/// bytes behind each line but the last are filler, which is never read and never written.
#[derive(Clone, Copy, Debug, PartialEq, Eq)]
pub struct Frame {
    pub width: usize,
    pub height: usize,
    pub pitch: usize,
}

fn bad_sides(width: usize, height: usize) -> bool
    ensures { result ≡ bad_sides width height }
{
    width == 0 || 4096 < width || height == 0 || 4096 < height
}

/// Refusal 1 for a plane of `len` floats.
pub fn bad_plane(len: usize, width: usize, height: usize) -> bool
    ensures { result ≡ bad_plane len width height }
{
    bad_sides(width, height) || len != width * height
}

/// An 8-bit plane without filler.
pub fn packed_frame(width: usize, height: usize) -> Frame
    ensures { result ≡ packed_frame width height }
{
    Frame {
        width,
        height,
        pitch: width,
    }
}

fn bad_pitch(width: usize, pitch: usize) -> bool
    ensures { result ≡ bad_pitch width pitch }
{
    pitch < width || 8192 < pitch
}

/// Refusal 1 for an 8-bit plane of `len` bytes.
pub fn bad_frame(len: usize, frame: Frame) -> bool
    ensures { result ≡ bad_frame len frame }
{
    let Frame {
        width,
        height,
        pitch,
    } = frame;
    bad_sides(width, height) || bad_pitch(width, pitch) || len != pitch * (height - 1) + width
}

/// The byte of an 8-bit plane that is pixel (x, y).
pub fn place_of(frame: Frame, x: usize, y: usize) -> usize
    requires { SmallFrame frame × (x ≤ 4096) × (y ≤ 4096) }
    ensures { result ≡ place_of frame x y }
{
    y * frame.pitch + x
}
