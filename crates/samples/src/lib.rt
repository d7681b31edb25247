//! Planes of f32 samples that a caller lends, checked once, and the tests of all samples that refusals 2 and 3 make.
#![tactic(auto)]

mod bounds;

ghost use Rattle.std.specs.Prelude.{◌≡◌, ◌*◌, ◌<◌, false, true, length, take, drop, IfOk, IfErr};
ghost use Rattle.refusals.specs.Plane.{bad_plane};

pub use bounds::{Bounds, TAME, UNIT};
use refusals::{Refusal, Shape, bad_plane};

/// A lent plane of samples whose length fits its sides. What refusal 1 lets through is one; how large the sides may be is asked by that
/// refusal alone.
#[derive(Clone, Copy, Debug, PartialEq)]
pub struct Plane<'a> {
    pub samples: &'a [f32],
    pub shape: Shape,
    ghost wide: { 0 < shape.width },
    ghost whole: { length samples.now ≡ shape.width * shape.height },
}

impl<'a> Plane<'a> {
    /// The plane, where its sides and its length are good, and else refusal 1.
    pub fn new(samples: &'a [f32], shape: Shape) -> Result<Plane<'a>, Refusal>
        ensures ok { IfOk result (λ p. (p.samples.now ≡ samples.now) × (p.shape ≡ shape) × (bad_plane (length samples.now) shape.width shape.height ≡ false)) }
        ensures refused { IfErr result (λ e. (e ≡ Refusal.Plane) × (bad_plane (length samples.now) shape.width shape.height ≡ true)) }
    {
        if bad_plane(samples.len(), shape.width, shape.height) {
            return Err(Refusal::Plane);
        }
        Ok(Plane { samples, shape })
    }

    /// Row `y`.
    #[tactic(auto, using(crate::proofs::Laws::row_within))]
    pub fn row(&self, y: usize) -> &'a [f32]
        requires { y < self.now.shape.height }
        ensures { result.now ≡ take self.now.shape.width (drop (y * self.now.shape.width) self.now.samples.now) }
    {
        let width = self.shape.width;
        let start = y * width;
        &self.samples[start..start + width]
    }
}
