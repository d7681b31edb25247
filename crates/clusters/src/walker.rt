//! The walk through a cluster: how samples are claimed.
ghost use Rattle.std.specs.Prelude.{◌≡◌, ◌+◌, ◌%◌, ◌<◌, ◌≤◌, length};
ghost use Rattle.clusters.specs.Walk.{walk, claimed, claimed_beside};

/// A walk: the plane, the threshold below which its samples are claimed, and the worklist, on which `pending` samples wait.
#[derive(Drop)]
pub(crate) struct Walker<'a> {
    pub(crate) mat: &'a mut [f32],
    pub(crate) threshold: f32,
    pub(crate) worklist: &'a mut [u32],
    pub(crate) pending: usize,
}

impl<'a> Walker<'a> {
    /// A sample below the threshold is set to f32::MAX and put on the worklist.
    #[tactic(auto, using(crate::proofs::Walk::claim_low, crate::proofs::Walk::claimed_high))]
    pub(crate) fn claim(&mut self, at: usize)
        requires { (at < length self.old.mat.now) × (length self.old.mat.now ≤ 16777216) × (self.old.pending < length self.old.worklist.now) }
        ensures worklist_after { walk self.new.mat.now self.new.pending self.new.worklist.now ≡ claimed self.old.threshold at (walk self.old.mat.now self.old.pending self.old.worklist.now) }
        ensures upper_bound { self.new.pending ≤ self.old.pending + 1 }
        ensures same_threshold { self.new.threshold ≡ self.old.threshold }
        ensures same_lengths { (length self.new.mat.now ≡ length self.old.mat.now) × (length self.new.worklist.now ≡ length self.old.worklist.now) }
        ensures same_loans { (self.new.mat.ghost_name ≡ self.old.mat.ghost_name) × (self.new.worklist.ghost_name ≡ self.old.worklist.ghost_name) }
    {
        if self.mat[at] < self.threshold {
            self.mat[at] = f32::MAX;
            self.worklist[self.pending] = at as u32;
            self.pending += 1;
        }
    }

    /// The neighbours of sample p are claimed: to its left, to its right, above it and below it, as far as they lie in the plane.
    #[tactic(auto, unfolding(crate::specs::Walk::claimed_if))]
    pub(crate) fn claim_around(&mut self, width: usize, p: usize)
        requires { (0 < width) × (width ≤ 4096) × (length self.old.mat.now % width ≡ 0) × (length self.old.mat.now ≤ 16777216)
            × (p < length self.old.mat.now) × (self.old.pending + 4 ≤ length self.old.worklist.now) }
        ensures worklist_after { walk self.new.mat.now self.new.pending self.new.worklist.now
            ≡ claimed_beside self.old.threshold width (length self.old.mat.now) p (walk self.old.mat.now self.old.pending self.old.worklist.now) }
        ensures upper_bound { self.new.pending ≤ self.old.pending + 4 }
        ensures same_threshold { self.new.threshold ≡ self.old.threshold }
        ensures same_lengths { (length self.new.mat.now ≡ length self.old.mat.now) × (length self.new.worklist.now ≡ length self.old.worklist.now) }
        ensures same_loans { (self.new.mat.ghost_name ≡ self.old.mat.ghost_name) × (self.new.worklist.ghost_name ≡ self.old.worklist.ghost_name) }
    {
        let n = self.mat.len();
        let x = p % width;
        if 0 < x {
            self.claim(p - 1);
        }
        if x + 1 < width {
            self.claim(p + 1);
        }
        if width <= p {
            self.claim(p - width);
        }
        if p + width < n {
            self.claim(p + width);
        }
    }
}
