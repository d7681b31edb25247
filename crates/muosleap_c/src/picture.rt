//! Picture to clusters: blur, response, threshold, clusters, centres.
ghost use Rattle.std.specs.Prelude.{◌≡◌, length};
ghost use Rattle.muosleap_picture.specs.ImageUtil.{gaussian_blur, hessian_response, response_threshold};
ghost use Rattle.muosleap_picture.specs.SaddleClusters.{init_saddle_clusters};
ghost use Rattle.muosleap_picture.specs.ClusterCenter.{cluster_center};
ghost use Rattle.outputs.specs.Outputs.{Gives, whole, held};
ghost use Rattle.muosleap_c.specs.Picture.{Blurs, Responds, FindsClusters, coordinates};
ghost use Rattle.muosleap_c.specs.Structs.{shape_of};

use muosleap_picture::{image_util, saddles};
use points::Point;
use refusals::Shape;

/// A blur; a refused call leaves both planes as they were. Refusals 1, 2 and 3.
#[unsafe(no_mangle)]
pub extern "C" fn muosleap_gaussian_blur_f32(
    img: &[f32],
    width: usize,
    height: usize,
    weights: &[f32],
    temp: &mut [f32],
    out: &mut [f32],
) -> u32
    ensures { Blurs (gaussian_blur img.now (shape_of width height) weights.now temp.old out.old)
        result (held temp) (held out) }
{
    let shape = Shape { width, height };
    let blurred = image_util::gaussian_blur_f32(img, shape, weights, temp, out);
    outputs::number_of(blurred)
}

/// A response; a refused call leaves the output as it was. Refusals 1 and 3.
#[unsafe(no_mangle)]
pub extern "C" fn muosleap_hessian_response(
    img: &[f32],
    width: usize,
    height: usize,
    out: &mut [f32],
) -> u32
    ensures { Responds (hessian_response img.now (shape_of width height) out.old) result (held out) }
{
    let shape = Shape { width, height };
    outputs::number_of(image_util::hessian_response(img, shape, out))
}

/// A response's threshold. Refusals 1 and 3.
#[unsafe(no_mangle)]
pub extern "C" fn muosleap_response_threshold(
    response: &[f32],
    width: usize,
    height: usize,
    threshold: &mut f32,
) -> u32
    ensures { Gives (response_threshold response.now (shape_of width height)) whole result (held threshold) }
{
    let shape = Shape { width, height };
    outputs::put(image_util::response_threshold(response, shape), threshold)
}

/// Clusters, and how many rows they are; a refused call leaves plane, worklist and rows as they were. Refusals 1, 3, 4 and 5.
#[unsafe(no_mangle)]
pub extern "C" fn muosleap_init_saddle_clusters(
    h_mat: &mut [f32],
    width: usize,
    height: usize,
    threshold: f32,
    worklist: &mut [u32],
    rows: &mut [u64],
    total: &mut usize,
) -> u32
    ensures { FindsClusters
        (init_saddle_clusters h_mat.old (shape_of width height) threshold (length worklist.old) rows.old)
        result (held h_mat) (held worklist) (held rows) (held total) }
{
    let shape = Shape { width, height };
    let clusters = saddles::init_saddle_clusters(h_mat, shape, threshold, worklist, rows);
    outputs::put(clusters, total)
}

/// The two numbers of a point.
fn coordinates(p: Point) -> [f32; 2]
    ensures { result ≡ coordinates p }
{
    [p.x, p.y]
}

/// A cluster's centre. Refusal 15.
#[unsafe(no_mangle)]
pub extern "C" fn muosleap_cluster_center(
    sum_x: u64,
    sum_y: u64,
    count: u64,
    center: &mut [f32; 2],
) -> u32
    ensures { Gives (cluster_center sum_x sum_y count) coordinates result (held center) }
{
    let found = saddles::cluster_center(sum_x, sum_y, count);
    outputs::put(found.map(coordinates), center)
}
