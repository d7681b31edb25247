//! Clusters of a plane and their centres, for calls whose refusals the public entries have tested.
//! The rows are scanned for samples below the threshold. From each one that is found a walk claims its cluster: samples that
//! it reaches are set to the largest f32 and wait on the worklist until their own neighbours are claimed. So each sample
//! waits once, and a cluster that was found is not found again.
#![tactic(auto)]

mod row_list;
mod walker;

ghost use Rattle.std.specs.Prelude.{◌≡◌, true, false, ◌+◌, ◌*◌, ◌%◌, ◌<◌, ◌≤◌, length, IfNone, IfSome};
ghost use Rattle.std.specs.Float.Ieee.{lt};
ghost use Rattle.std.specs.Float.Ieee.Scale.{finite};
ghost use Rattle.lists.specs.Each.{any};
ghost use Rattle.refusals.specs.Plane.{bad_plane};
ghost use Rattle.clusters.specs.Connected.{below};
ghost use Rattle.clusters.specs.Clusters.{max_f32, row_of, saddle_clusters};
ghost use Rattle.clusters.specs.Center.{bad_center, center};
ghost use Rattle.clusters.specs.Walk.{erased, NoneBelow, Onward};

use points::Point;
use refusals::Shape;
use row_list::RowList;
use std::simd::prelude::*;
use walker::Walker;

/// The row of a cluster: the sum of its samples' columns, of their rows, and their number.
#[derive(Clone, Copy, Debug, PartialEq, Eq)]
pub struct Row {
    pub x: u64,
    pub y: u64,
    pub count: u64,
}

/// The cluster of `seed`, a sample below the threshold: its samples are set to f32::MAX, and its row is the answer.
#[tactic(auto, using(crate::proofs::Connected::below_inside))]
fn pixel_bfs(
    mat: &mut [f32],
    width: usize,
    threshold: f32,
    worklist: &mut [u32],
    seed: usize,
) -> Row
    requires width_nonzero { (0 < width) × (width ≤ 4096) × (length mat.old % width ≡ 0) × (length mat.old ≤ 16777216) }
    requires seed_value { (below threshold mat.old seed ≡ true) × (lt max_f32 threshold ≡ false) × (3 * length mat.old + 1 ≤ length worklist.old) }
    ensures { (mat.new ≡ erased threshold width mat.old seed) × (result ≡ row_of threshold width mat.old seed) }
{
    let mut walker = Walker {
        mat,
        threshold,
        worklist,
        pending: 0,
    };
    walker.claim(seed);
    let mut x: u64 = 0;
    let mut y: u64 = 0;
    let mut count: u64 = 0;
    // The worklist grows while it is emptied: there is no range to go over.
    while 0 < walker.pending {
        walker.pending -= 1;
        let p = walker.worklist[walker.pending] as usize;
        x += (p % width) as u64;
        y += (p / width) as u64;
        count += 1;
        walker.claim_around(width, p);
    }
    Row { x, y, count }
}

/// One of the 32 samples from `from` on is below the threshold. They are compared side by side.
fn block_below(mat: &[f32], from: usize, threshold: f32) -> bool
    requires { from + 32 ≤ length mat.now }
    ensures { result ≡ any 32 (λ j. below threshold mat.now (from + j)) }
{
    let block = f32x32::from_slice(&mat[from..]);
    block.simd_lt(f32x32::splat(threshold)).any()
}

/// Whole blocks in which no sample is below the threshold are passed over, from `from` on and before `end`.
fn skip_blocks(mat: &[f32], from: usize, end: usize, threshold: f32) -> usize
    requires { (end ≤ length mat.now) × (from ≤ length mat.now) }
    ensures { (from ≤ result) × NoneBelow threshold mat.now from result }
{
    let blocks = end.saturating_sub(from) / 32;
    let passed = (0..blocks).find(|&k| block_below(mat, from + 32 * k, threshold));
    from + 32 * passed.unwrap_or(blocks)
}

/// The first sample below the threshold, from `from` on and before `end`.
fn first_below(mat: &[f32], from: usize, end: usize, threshold: f32) -> Option<usize>
    requires { (end ≤ length mat.now) × (from ≤ length mat.now) }
    ensures nothing { IfNone result (NoneBelow threshold mat.now from end) }
    ensures first { IfSome result (λ i. (from ≤ i) × (i < end) × (below threshold mat.now i ≡ true) × NoneBelow threshold mat.now from i) }
{
    let start = skip_blocks(mat, from, end, threshold);
    (start..end).find(|&i| mat[i] < threshold)
}

/// The clusters whose first sample off the border lies in row `row`. Those of the rows above are in `rows`.
#[tactic(auto, using(refusals::proofs::Plane::good_plane, crate::proofs::Scan::two_rows))]
fn scan_row(
    mat: &mut [f32],
    shape: Shape,
    threshold: f32,
    worklist: &mut [u32],
    rows: &mut RowList<'_>,
    row: usize,
)
    requires height_value { bad_plane (length mat.old) shape.width shape.height ≡ false }
    requires threshold_value { (lt max_f32 threshold ≡ false) × (3 * length mat.old + 1 ≤ length worklist.old) × (0 < row) × (row + 1 < shape.height) × (rows.old.total ≤ row * shape.width) }
    ensures onward { Onward threshold shape
        (row * shape.width) (record { plane = mat.old; rows = rows.old.slice.now; total = rows.old.total })
        ((row + 1) * shape.width) (record { plane = mat.new; rows = rows.new.slice.now; total = rows.new.total }) }
    ensures upper_bound { rows.new.total ≤ (row + 1) * shape.width }
    ensures same_loan { rows.new.slice.ghost_name ≡ rows.old.slice.ghost_name }
{
    let start = row * shape.width;
    let end = start + shape.width - 1;
    let mut from = start + 1;
    // Each search begins behind the sample that the one before it found, in a plane that has changed since: no range to go over.
    while let Some(i) = first_below(mat, from, end, threshold) {
        rows.push(pixel_bfs(mat, shape.width, threshold, worklist, i));
        from = i + 1;
    }
}

/// The clusters of a plane. Rows are written as far as there is room for them, clustered samples are set to f32::MAX, and the
/// answer is the total.
#[tactic(auto, using(refusals::proofs::Plane::good_plane))]
pub fn init_saddle_clusters(
    h_mat: &mut [f32],
    shape: Shape,
    threshold: f32,
    worklist: &mut [u32],
    rows: &mut [u64],
) -> usize
    requires height_value { bad_plane (length h_mat.old) shape.width shape.height ≡ false }
    requires threshold_value { (finite threshold ≡ true) × (3 * length h_mat.old + 1 ≤ length worklist.old) }
    ensures { record { plane = h_mat.new; rows = rows.new; total = result } ≡ saddle_clusters threshold shape h_mat.old rows.old }
{
    let mut found = RowList {
        slice: rows,
        total: 0,
    };
    for row in 1..shape.height - 1 {
        scan_row(h_mat, shape, threshold, worklist, &mut found, row);
    }
    found.total
}

/// A whole number below 2^24 is an f32 without loss.
const EXACT: u64 = 16777216;

/// Refusal 15 for a centre.
#[tactic(auto, using(std::proofs::lemmas::Bool::Decides::nat_tests), unfolding(crate::specs::Center::bad_center))]
pub fn bad_center(sum_x: u64, sum_y: u64, count: u64) -> bool
    ensures { result ≡ bad_center sum_x sum_y count }
{
    EXACT <= sum_x || EXACT <= sum_y || EXACT <= count || count == 0
}

/// The centre of a cluster from its row.
pub fn cluster_center(sum_x: u64, sum_y: u64, count: u64) -> Point
    requires { bad_center sum_x sum_y count ≡ false }
    ensures { result ≡ center sum_x sum_y count }
{
    // It cannot fail: who asks for a centre has asked `bad_center` before.
    let n = count as f32;
    Point {
        x: sum_x as f32 / n,
        y: sum_y as f32 / n,
    }
}
