//! 8-bit planes that refusal 1 lets through.
ghost use Rattle.std.specs.Prelude.{◌≡◌, ◌<◌, true, false, length, IfOk, IfErr};
ghost use Rattle.refusals.specs.Pixels.{bad_frame, level_at};

use crate::refusal::Refusal;
use crate::{Frame, bad_frame, place_of};

/// A lent 8-bit plane that has been checked.
#[derive(Clone, Copy, Debug, PartialEq, Eq)]
pub struct Picture<'a> {
    pub bytes: &'a [u8],
    pub frame: Frame,
    ghost framed: { bad_frame (length bytes.now) frame ≡ false },
}

impl<'a> Picture<'a> {
    /// The plane, where its frame and its length are good, and else refusal 1.
    pub fn new(bytes: &'a [u8], frame: Frame) -> Result<Picture<'a>, Refusal>
        ensures ok { IfOk result (λ p. (p.bytes.now ≡ bytes.now) × (p.frame ≡ frame) × (bad_frame (length bytes.now) frame ≡ false)) }
        ensures refused { IfErr result (λ e. (e ≡ Refusal.Plane) × (bad_frame (length bytes.now) frame ≡ true)) }
    {
        if bad_frame(bytes.len(), frame) {
            return Err(Refusal::Plane);
        }
        Ok(Picture { bytes, frame })
    }

    /// The level of pixel (x, y).
    pub fn level(&self, x: usize, y: usize) -> u8
        requires across { x < self.now.frame.width }
        requires down { y < self.now.frame.height }
        ensures { result ≡ level_at self.now.bytes.now self.now.frame x y }
    {
        self.bytes[place_of(self.frame, x, y)]
    }
}
