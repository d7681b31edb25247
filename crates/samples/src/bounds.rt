//! Between which two numbers samples have to lie.
ghost use Rattle.std.specs.Prelude.{◌≡◌};
ghost use Rattle.lists.specs.Tab.{all};
ghost use Rattle.samples.specs.Samples.{between};

use std::simd::prelude::*;

/// The least and the largest number that a sample may be.
#[derive(Clone, Copy, Debug, PartialEq)]
pub struct Bounds {
    pub low: f32,
    pub high: f32,
}

/// From 0.0 to 1.0, as samples to be blurred and weights have to be.
pub const UNIT: Bounds = Bounds {
    low: 0.0,
    high: 1.0,
};

/// Of a magnitude of at most 65,536, as the samples of all other planes have to be.
pub const TAME: Bounds = Bounds {
    low: -65536.0,
    high: 65536.0,
};

impl Bounds {
    /// Whether every lane is within the bounds. A NaN is not.
    pub fn hold_lanes(self, lanes: f32x16) -> bool
        ensures { result ≡ all (between self.low self.high) lanes }
    {
        let above = f32x16::splat(self.low).simd_le(lanes);
        let below = lanes.simd_le(f32x16::splat(self.high));
        (above & below).all()
    }

    /// Whether every sample is within the bounds. A NaN is not. They are tested in blocks of 16 lanes, since a test of one sample
    /// after the other is not turned into vector instructions.
    pub fn hold(self, samples: &[f32]) -> bool
        ensures { result ≡ all (between self.low self.high) samples.now }
    {
        let (blocks, rest) = samples.as_chunks::<16>();
        blocks
            .iter()
            .all(|block| self.hold_lanes(f32x16::from_array(*block)))
            && rest.iter().all(|&v| self.low <= v && v <= self.high)
    }
}
