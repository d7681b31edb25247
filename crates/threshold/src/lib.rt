//! The threshold below which samples of a response are clustered.
#![tactic(auto)]

ghost use Rattle.std.specs.Prelude.{◌≡◌, ◌↔◌, true, cond, ◌<◌, length, IsSome, IfSome};
ghost use Rattle.std.specs.Float.Ieee.{eq, le};
ghost use Rattle.std.specs.Simd.Lanes.{zip2};
ghost use Rattle.lists.specs.Tab.{all};
ghost use Rattle.samples.specs.Samples.{tame};
ghost use Rattle.threshold.specs.Threshold.{lesser, lowest_of, lowest, threshold_of, threshold};

use samples::TAME;
use std::simd::prelude::*;

/// The lesser of two, `a` where they are equal.
fn lesser(a: f32, b: f32) -> f32
    ensures { result ≡ lesser a b }
{
    if b < a { b } else { a }
}

/// The lowest of `low` and the samples.
fn lowest_of(low: f32, samples: &[f32]) -> f32
    ensures { result ≡ lowest_of low samples.now }
{
    let mut least = low;
    for &sample in samples {
        least = lesser(least, sample);
    }
    least
}

/// Lowers each lane to the sample at its place.
fn lower_each(lanes: f32x16, samples: f32x16) -> f32x16
    ensures { result ≡ zip2 (λ a b. cond (le a b) a b) lanes samples }
{
    lanes.simd_le(samples).select(lanes, samples)
}

/// The lowest sample, or `None` where one has a magnitude above 65,536 or is a NaN. Where the lowest is a zero, the answer may be
/// either zero. Sixteen lanes are gathered side by side, since each step of a single one would wait for the step before it. The
/// tests are gathered too: to leave at the first that fails would cost a branch in each turn.
fn find_lowest(samples: &[f32]) -> Option<f32>
    requires { 0 < length samples.now }
    ensures tame { IsSome result ↔ (all tame samples.now ≡ true) }
    ensures low { IfSome result (λ low. eq low (lowest samples.now) ≡ true) }
{
    let (blocks, rest) = samples.as_chunks::<16>();
    let mut lanes = f32x16::splat(samples[0]);
    let mut tame = true;
    for block in blocks {
        let block_lanes = f32x16::from_array(*block);
        tame &= TAME.hold_lanes(block_lanes);
        lanes = lower_each(lanes, block_lanes);
    }
    let gathered = lowest_of(samples[0], &lanes.to_array());
    (tame && TAME.hold(rest)).then_some(lowest_of(gathered, rest))
}

/// The lowest sample times 0.05, where a zero is +0.0.
fn threshold_of(low: f32) -> f32
    ensures { result ≡ threshold_of low }
{
    let t = low * 0.05;
    if t == 0.0 { 0.0 } else { t }
}

/// The threshold of a response, or `None` where one of its samples has a magnitude above 65,536 or is a NaN. The samples are tested
/// in the pass that finds the lowest.
pub fn response_threshold(response: &[f32]) -> Option<f32>
    requires { 0 < length response.now }
    ensures tame { IsSome result ↔ (all tame response.now ≡ true) }
    ensures value { IfSome result (λ t. t ≡ threshold response.now) }
{
    let low = find_lowest(response)?;
    Some(threshold_of(low))
}
