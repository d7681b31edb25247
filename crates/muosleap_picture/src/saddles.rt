//! The public entries on clusters and their centres.
ghost use Rattle.std.specs.Prelude.{◌≡◌, length};
ghost use Rattle.refusals.specs.Numbers.{outcome};
ghost use Rattle.muosleap_picture.specs.SaddleClusters.{init_saddle_clusters, WorklistKept};
ghost use Rattle.muosleap_picture.specs.ClusterCenter.{cluster_center};

use points::Point;
use refusals::{Refusal, Shape};
use samples::{Plane, TAME};

/// The clusters of a plane: the total, as many whole rows as fit, and clustered samples at the largest f32. Refusals, with
/// everything as it was: 1 for the plane, 3 for a sample of a magnitude above 65,536, 4 for a threshold that is not finite, 5 for a
/// worklist with less room than three times the samples and one.
#[tactic(auto, using(std::proofs::lemmas::Bool::Decides::nat_tests), unfolding(crate::specs::SaddleClusters::init_saddle_clusters))]
pub fn init_saddle_clusters(
    h_mat: &mut [f32],
    shape: Shape,
    threshold: f32,
    worklist: &mut [u32],
    rows: &mut [u64],
) -> Result<usize, Refusal>
    ensures rows_after { record { answer = outcome result; plane = h_mat.new; rows = rows.new }
        ≡ init_saddle_clusters h_mat.old shape threshold (length worklist.old) rows.old }
    ensures worklist_kept { WorklistKept (outcome result) worklist.old worklist.new }
{
    Plane::new(h_mat, shape)?;
    if !TAME.hold(h_mat) {
        return Err(Refusal::Sample);
    }
    if !threshold.is_finite() {
        return Err(Refusal::Threshold);
    }
    if worklist.len() < 3 * h_mat.len() + 1 {
        return Err(Refusal::Worklist);
    }
    Ok(clusters::init_saddle_clusters(h_mat, shape, threshold, worklist, rows))
}

/// The centre of a cluster from its row, or refusal 15.
#[tactic(auto, unfolding(crate::specs::ClusterCenter::cluster_center))]
pub fn cluster_center(sum_x: u64, sum_y: u64, count: u64) -> Result<Point, Refusal>
    ensures { outcome result ≡ cluster_center sum_x sum_y count }
{
    if clusters::bad_center(sum_x, sum_y, count) {
        return Err(Refusal::Count);
    }
    Ok(clusters::cluster_center(sum_x, sum_y, count))
}
