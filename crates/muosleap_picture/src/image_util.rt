//! Planes of f32 samples, after the file of this name of the Rust. Each function takes any input: it answers with a refusal, and then
//! has written nothing, or does its work.
ghost use Rattle.std.specs.Prelude.{◌≡◌};
ghost use Rattle.refusals.specs.Numbers.{outcome, done};
ghost use Rattle.muosleap_picture.specs.ImageUtil.{gaussian_blur, hessian_response, response_threshold};

use blur::{bad_weights, blur_across, blur_down};
use refusals::{Refusal, Shape};
use samples::{Plane, TAME, UNIT};

/// Blurs `img` across into `temp`, and `temp` down into `out`. Refusals: 1 for each of the three planes, 2 for the weights, 3 for a
/// sample of `img` outside of 0.0 to 1.0.
#[tactic(auto, unfolding(crate::specs::ImageUtil::gaussian_blur))]
pub fn gaussian_blur_f32(
    img: &[f32],
    shape: Shape,
    weights: &[f32],
    temp: &mut [f32],
    out: &mut [f32],
) -> Result<(), Refusal>
    ensures { record { answer = done result; temp = temp.new; out = out.new }
        ≡ gaussian_blur img.now shape weights.now temp.old out.old }
{
    let plane = Plane::new(img, shape)?;
    Plane::new(temp, shape)?;
    Plane::new(out, shape)?;
    if bad_weights(weights) {
        return Err(Refusal::Weights);
    }
    if !UNIT.hold(img) {
        return Err(Refusal::Sample);
    }
    blur_across(&plane, weights, temp);
    let across = Plane {
        samples: temp,
        shape,
    };
    blur_down(&across, weights, out);
    Ok(())
}

/// The response of `img` into `out`. Refusals: 1 for both planes, 3 for a sample of a magnitude above 65,536.
#[tactic(auto, unfolding(crate::specs::ImageUtil::hessian_response))]
pub fn hessian_response(img: &[f32], shape: Shape, out: &mut [f32]) -> Result<(), Refusal>
    ensures { record { answer = done result; out = out.new } ≡ hessian_response img.now shape out.old }
{
    let plane = Plane::new(img, shape)?;
    Plane::new(out, shape)?;
    if !TAME.hold(img) {
        return Err(Refusal::Sample);
    }
    response::hessian_response(&plane, out);
    Ok(())
}

/// The threshold below which samples of a response are clustered. Refusals: 1 for the plane, 3 for a sample of a magnitude above
/// 65,536.
#[tactic(auto, unfolding(crate::specs::ImageUtil::response_threshold))]
pub fn response_threshold(response: &[f32], shape: Shape) -> Result<f32, Refusal>
    ensures { outcome result ≡ response_threshold response.now shape }
{
    Plane::new(response, shape)?;
    threshold::response_threshold(response).ok_or(Refusal::Sample)
}
