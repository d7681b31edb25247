//! The response, two rows at a time.
#![tactic(auto)]

ghost use Rattle.std.specs.Prelude.{◌≡◌, ◌+◌, ◌*◌, ◌<◌, ◌≤◌, length, get_or};
ghost use Rattle.std.specs.Float.{nan};
ghost use Rattle.lists.specs.Tab.{tabulate};
ghost use Rattle.response.specs.Response.{determinant_at, response_at, response};
ghost use Rattle.response.specs.Steps.{row_response, FourRows, pair_response};

use samples::Plane;

/// The response at place `x` of a row, from its nine samples in the fixed order of operations.
fn determinant_at(above: &[f32], here: &[f32], below: &[f32], x: usize) -> f32
    requires { (0 < x) × (x + 1 < length above.now) × (x + 1 < length here.now) × (x + 1 < length below.now) }
    ensures { result ≡ determinant_at (λ p. get_or above.now p nan) (λ p. get_or here.now p nan) (λ p. get_or below.now p nan) x }
{
    let v11 = above[x - 1];
    let v12 = above[x];
    let v13 = above[x + 1];
    let v21 = here[x - 1];
    let v22 = here[x];
    let v23 = here[x + 1];
    let v31 = below[x - 1];
    let v32 = below[x];
    let v33 = below[x + 1];
    let lxx = v21 - (v22 * 2.0) + v23;
    let lyy = v12 - (v22 * 2.0) + v32;
    let lxy = (v13 - v11 + v31 - v33) * 0.25;
    lxx * lyy - lxy * lxy
}

/// A row off the border. Its own first and last sample are on it.
fn respond_row(row: &mut [f32], above: &[f32], here: &[f32], below: &[f32])
    requires { (0 < length row.old) × (length above.now ≡ length row.old) × (length here.now ≡ length row.old) × (length below.now ≡ length row.old) }
    ensures { row.new ≡ tabulate (length row.old) (row_response above.now here.now below.now (length row.old)) }
{
    let last = row.len() - 1;
    row[0] = 0.0;
    for x in 1..last {
        row[x] = determinant_at(above, here, below, x);
    }
    if 0 < last {
        row[last] = 0.0;
    }
}

/// Two rows off the border, one below the other in `pair`: the response at `upper` and at `lower`. Both determinants are worked
/// out before either is written, so that the samples which they share are read once: with `respond_row` alone, which stays for a
/// row that is left over, the response has 6 % less speed.
fn respond_pair(pair: &mut [f32], above: &[f32], upper: &[f32], lower: &[f32], below: &[f32])
    requires { FourRows pair.old above.now upper.now lower.now below.now }
    ensures { pair.new ≡ pair_response above.now upper.now lower.now below.now }
{
    let width = above.len();
    let last = width - 1;
    pair[0] = 0.0;
    pair[width] = 0.0;
    for x in 1..last {
        let first = determinant_at(above, upper, lower, x);
        let second = determinant_at(upper, lower, below, x);
        pair[x] = first;
        pair[width + x] = second;
    }
    if 0 < last {
        pair[last] = 0.0;
        pair[width + last] = 0.0;
    }
}

/// Row `y` of the response, which is not the first or the last.
fn inner_row(row: &mut [f32], img: &Plane, y: usize)
    requires { (length row.old ≡ img.now.shape.width) × (0 < y) × (y + 1 < img.now.shape.height) }
    ensures { row.new ≡ tabulate img.now.shape.width (λ x. response_at img.now.samples.now img.now.shape.width img.now.shape.height (y * img.now.shape.width + x)) }
{
    respond_row(row, img.row(y - 1), img.row(y), img.row(y + 1));
}

/// Rows `y` and `y + 1` of the response, neither of which is the first or the last.
fn inner_pair(pair: &mut [f32], img: &Plane, y: usize)
    requires { (length pair.old ≡ img.now.shape.width + img.now.shape.width) × (0 < y) × (y + 2 < img.now.shape.height) }
    ensures { pair.new ≡ tabulate (img.now.shape.width + img.now.shape.width) (λ p. response_at img.now.samples.now img.now.shape.width img.now.shape.height (y * img.now.shape.width + p)) }
{
    respond_pair(
        pair,
        img.row(y - 1),
        img.row(y),
        img.row(y + 1),
        img.row(y + 2),
    );
}

/// The response of a plane into `out`. The rows off the border are written two at a time, and one that is left over by itself. The
/// first and the last row are written outside of the loop. So every row that the loop could read lies in the plane, and the
/// compiler's test for overlap, which goes by those rows, does not keep the vector instructions from planes that stand side by side
/// in memory. The row that is left over is written outside of it too, so that a plane with no two rows off the border goes without
/// that test, which would be a third of its time.
#[tactic(auto, using(lists::proofs::Rows::row_fits))]
pub fn hessian_response(img: &Plane, out: &mut [f32])
    requires { (0 < img.now.shape.height) × (length out.old ≡ length img.now.samples.now) }
    ensures { out.new ≡ response img.now.samples.now img.now.shape.width img.now.shape.height }
{
    let width = img.shape.width;
    let last = img.shape.height - 1;
    let inner = last.saturating_sub(1);
    out[0..width].fill(0.0);
    for pair in 0..inner / 2 {
        let y = 2 * pair + 1;
        inner_pair(&mut out[y * width..(y + 2) * width], img, y);
    }
    if inner % 2 == 1 {
        inner_row(&mut out[inner * width..last * width], img, inner);
    }
    out[last * width..].fill(0.0);
}
