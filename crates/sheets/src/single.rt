//! The single tags of a table that are painted and read, in three ways. A tag is made by its id, so loops go over numbers.
use crate::tags::{Misprint, Tag};
use crate::tried::Tried;
use refusals::packed_frame;
use vectors::Tally;

/// Every code at each of its four turns, in cells of several sizes.
pub fn turns(table: &Tried, plane: &mut [u8]) -> Tally {
    let mut tally = Tally::new();
    for id in 0..table.codes.len() {
        for cell in [1, 2, 3, 10, 64] {
            for turn in 0..4 {
                Tag::new(table, id, cell, turn, Misprint::NONE).paint_and_count(plane, &mut tally);
            }
        }
    }
    tally
}

/// Every code in each corner of a plane with room for one pixel more.
pub fn corners(table: &Tried, plane: &mut [u8]) -> Tally {
    let mut tally = Tally::new();
    for id in 0..table.codes.len() {
        for cell in [1, 2] {
            let tag = Tag::new(table, id, cell, id, Misprint::NONE);
            let wide = tag.frame.width.saturating_add(1);
            for corner in 0..4 {
                tag.placed(corner % 2, corner / 2, packed_frame(wide, wide))
                    .paint_and_count(plane, &mut tally);
            }
        }
    }
    tally
}

/// Every code with each of the table's misprints.
pub fn misprints(table: &Tried, plane: &mut [u8]) -> Tally {
    let mut tally = Tally::new();
    for id in 0..table.codes.len() {
        for p in 0..table.misprints {
            Tag::new(table, id, 3, id, Misprint::nth(p)).paint_and_count(plane, &mut tally);
        }
    }
    tally
}
