//! A whole sheet, painted and read: each of its tags from its four starts, alone and in lists.
ghost use Rattle.std.specs.Prelude.{◌≤◌};

use crate::tags::{Shown, Tag};
use grid::Grid;
use muosleap_paint::sheet::{paint_sheet, paint_sheet_in};
use points::{QUAD_SIZE, rotate_left};
use refusals::Refusal;
use vectors::answers::Answer;
use vectors::{Tally, product};

/// What is painted: the grid, and the tag at its position 0, but with the grid's print. The other tags have its table and frame.
#[derive(Clone, Copy)]
pub struct Board<'a> {
    pub grid: Grid,
    pub tag: Tag<'a>,
}

/// How many tags a grid has, of 32 at most in a row and in a column.
pub fn tags_of(grid: Grid) -> usize
    ensures { result ≤ 1024 }
{
    product(grid.rows, grid.columns, 1024)
}

impl Board<'_> {
    /// Paints it, with a family's tags by its number.
    fn paint(&self, plane: &mut [u8], quads: &mut [f32]) -> Result<(), Refusal> {
        let tag = self.tag;
        let table = tag.table;
        // Each painting takes things of its own, here and where a tag is painted or read.
        match table.number {
            Some(number) => paint_sheet_in(plane, tag.frame, number, self.grid, tag.print, quads),
            None => paint_sheet(
                plane,
                tag.frame,
                table.family,
                table.codes,
                self.grid,
                tag.print,
                quads,
            ),
        }
    }

    /// Paints it into the first bytes of `plane`, only to see whether it is refused. Neither this nor the next is inlined, so that their
    /// arrays lie on the stack only while they run.
    #[inline(never)]
    pub fn try_paint(&self, plane: &mut [u8]) -> Result<(), Refusal> {
        let mut room = [9.0f32; 8200];
        self.paint(self.tag.own_plane(plane), &mut room)
    }

    /// Paints it into the first bytes of `plane`, and counts the readings of its tags and whether the numbers behind the quads are left.
    #[inline(never)]
    pub fn paint_and_count(&self, plane: &mut [u8], tally: &mut Tally) {
        let mut room = [9.0f32; 8200];
        let plane = self.tag.own_plane(plane);
        if self.paint(plane, &mut room).is_err() {
            tally.add(false, 0);
            return;
        }
        let count = QUAD_SIZE * tags_of(self.grid);
        tally.add(room[count..].iter().all(|x| *x == 9.0), count);
        let (quads, _) = room[..count].as_chunks::<QUAD_SIZE>();
        let painted = PaintedBoard {
            plane,
            first: self.tag,
            quads,
        };
        painted.count_alone(tally);
        for start in 0..4 {
            painted.count_list(start, tally);
        }
    }
}

/// A painted sheet: the plane, the tag at its position 0, and the numbers of each tag's quad.
#[derive(Clone, Copy)]
struct PaintedBoard<'a> {
    plane: &'a [u8],
    first: Tag<'a>,
    quads: &'a [[f32; QUAD_SIZE]],
}

impl PaintedBoard<'_> {
    /// Counts the four starts of each tag, alone.
    fn count_alone(&self, tally: &mut Tally) {
        for (id, numbers) in self.quads.iter().enumerate() {
            let shown = Shown {
                plane: self.plane,
                tag: Tag { id, ..self.first },
                quad: points::quad_at(numbers, 0),
            };
            shown.count_starts(tally);
        }
    }

    /// Counts the rows of all tags in one list, each at the same start.
    fn count_list(&self, start: u8, tally: &mut Tally) {
        let mut turned = [0.0f32; 8192];
        let mut rows = [9u64; 4096];
        let mut corners = [9.0f32; 8192];
        let (list, _) = turned.as_chunks_mut::<QUAD_SIZE>();
        for (to, from) in list.iter_mut().zip(self.quads) {
            points::put_quad(to, 0, rotate_left(points::quad_at(from, 0), start));
        }
        let quads = &turned[..QUAD_SIZE * self.quads.len().min(1024)];
        match self
            .first
            .read_list(self.plane, quads, &mut rows, &mut corners)
        {
            Ok(_) => self.count_rows(start, &rows, &corners, tally),
            Err(_) => tally.add(false, 0),
        }
    }

    fn count_rows(&self, start: u8, rows: &[u64], corners: &[f32], tally: &mut Tally) {
        for (id, numbers) in self.quads.iter().enumerate() {
            let tag = Tag { id, ..self.first };
            let expected = tag.expected(points::quad_at(numbers, 0), start);
            tally.add(Answer::of_row(rows, corners, id) == Some(expected), id);
        }
    }
}
