//! The row slice that a caller lends, as clusters are found.
ghost use Rattle.std.specs.Prelude.{◌≡◌, ◌+◌, ◌≤◌};
ghost use Rattle.clusters.specs.Walk.{put};

use crate::Row;

/// The rows of the clusters that are found: `total` of them, written to the slice as far as there is room.
#[derive(Drop)]
pub(crate) struct RowList<'a> {
    pub(crate) slice: &'a mut [u64],
    pub(crate) total: usize,
}

impl<'a> RowList<'a> {
    /// One more row. It is written where there is room for it, and counts in any case.
    #[tactic(auto, unfolding(crate::specs::Walk::put))]
    pub(crate) fn push(&mut self, row: Row)
        requires { self.old.total ≤ 16777216 }
        ensures written { self.new.slice.now ≡ put self.old.slice.now self.old.total row }
        ensures counted { self.new.total ≡ self.old.total + 1 }
        ensures same_loan { self.new.slice.ghost_name ≡ self.old.slice.ghost_name }
    {
        let at = 3 * self.total;
        if at + 3 <= self.slice.len() {
            self.slice[at] = row.x;
            self.slice[at + 1] = row.y;
            self.slice[at + 2] = row.count;
        }
        self.total += 1;
    }
}
