//! A whole sheet: a grid of a table's codes painted into one 8-bit plane.
#![tactic(auto, using(std::proofs::lemmas::Bool::Decides::nat_tests))]

ghost use Rattle.std.specs.Prelude.{◌≡◌, true, false, ◌+◌, ◌≤◌, ◌<◌, length, IfOk, IfErr};
ghost use Rattle.lists.specs.Front.{in_front};
ghost use Rattle.tables.specs.Table.{bad_edge, bad_border};
ghost use Rattle.painter.specs.Printable.{bad_style};
ghost use Rattle.grid.specs.Sheet.{sheet};
ghost use Rattle.grid.specs.Quads.{tag_count, position_print, sheet_quads};
ghost use Rattle.grid.specs.Refused.{line_size, bad_counts, bad_end, bad_grid, bad_output};

use painter::{Canvas, Print, Square, Tag};
use points::QUAD_SIZE;
use refusals::{Frame, Refusal};
use tables::Family;
use tables::checked::Table;

/// The tags in a column of the grid and in a row of it, and the cells of the gap between two of them.
#[derive(Clone, Copy, Debug, PartialEq, Eq)]
pub struct Grid {
    pub rows: usize,
    pub columns: usize,
    pub gap: usize,
}

impl Grid {
    /// How many tags the grid has.
    fn tag_count(self) -> usize
        requires { (self.rows ≤ 32) × (self.columns ≤ 32) }
        ensures count { result ≡ tag_count self }
        ensures few { result ≤ 1024 }
    {
        self.rows * self.columns
    }

    /// Refusal 17 for the counts of tags and the gap, with a table of so many codes.
    fn bad_counts(self, codes: usize) -> bool
        ensures { result ≡ bad_counts codes self }
    {
        tables::is_outside(1, 32, self.rows)
            || tables::is_outside(1, 32, self.columns)
            || tables::is_outside(1, 16, self.gap)
            || codes < self.tag_count()
    }

    /// So many tags in a line, with the gaps between them, in pixels.
    fn line_size(self, family: Family, print: Print, count: usize) -> usize
        requires { (family.edge ≤ 8) × (family.border ≤ 4) × (print.cell ≤ 64) × (self.gap ≤ 16) × (1 ≤ count) × (count ≤ 32) }
        ensures { result ≡ line_size family self print count }
    {
        let side = painter::side_of(family.edge, family.border);
        (count * side + (count - 1) * self.gap) * print.cell
    }

    /// The grid does not end at least one pixel before the right and lower edges.
    fn ends_late(self, frame: Frame, family: Family, print: Print) -> bool
        requires small { (family.edge ≤ 8) × (family.border ≤ 4) × (print.cell ≤ 64) × (self.gap ≤ 16) }
        requires counts { (1 ≤ self.rows) × (self.rows ≤ 32) × (1 ≤ self.columns) × (self.columns ≤ 32) }
        ensures { result ≡ bad_end frame family self print }
    {
        let wide = self.line_size(family, print, self.columns);
        let high = self.line_size(family, print, self.rows);
        painter::ends_late(frame.width, print.x, wide)
            || painter::ends_late(frame.height, print.y, high)
    }
}

/// Refusal 17, with a table of so many codes: the counts of tags, the gap and the place in the frame. The counts come first: only
/// small ones are multiplied. It is promised of any number of codes, which a `Sheet`'s table is not.
#[tactic(auto, using(std::proofs::lemmas::Bool::Decides::nat_tests), unfolding(crate::specs::Refused::bad_grid))]
pub fn bad_grid(frame: Frame, family: Family, codes: usize, grid: Grid, print: Print) -> bool
    requires { (bad_edge family.edge ≡ false) × (bad_border family.border ≡ false) × (bad_style print ≡ false) }
    ensures { result ≡ bad_grid frame family codes grid print }
{
    grid.bad_counts(codes) || grid.ends_late(frame, family, print)
}

/// Refusal 16 for an output of so many numbers.
pub fn bad_output(grid: Grid, numbers: usize) -> bool
    requires { (grid.rows ≤ 32) × (grid.columns ≤ 32) }
    ensures { result ≡ bad_output grid numbers }
{
    numbers < QUAD_SIZE * grid.tag_count()
}

/// A sheet, checked but for its place: a table's codes in a grid. Its upper left pixel, its cell, turn and shades are the print's.
#[derive(Clone, Copy, Debug, PartialEq, Eq)]
pub struct Sheet<'a> {
    pub table: Table<'a>,
    pub grid: Grid,
    pub print: Print,
    ghost styles: { bad_style print ≡ false },
    ghost counts: { bad_counts (length table.codes.now) grid ≡ false },
}

impl<'a> Sheet<'a> {
    /// The sheet, or refusal 17 for the counts of tags, the gap and the place in the frame.
    #[tactic(auto, using(tables::proofs::Table::table_edge, tables::proofs::Table::table_border), unfolding(crate::specs::Refused::bad_grid))]
    pub fn new(
        frame: Frame,
        table: Table<'a>,
        grid: Grid,
        print: Print,
    ) -> Result<Sheet<'a>, Refusal>
        requires style { bad_style print ≡ false }
        ensures ok { IfOk result (λ s. (s.table.family ≡ table.entry.family) × (s.table.codes.now ≡ table.entry.codes.now) × (s.grid ≡ grid) × (s.print ≡ print)
            × (bad_grid frame table.entry.family (length table.entry.codes.now) grid print ≡ false)) }
        ensures refused { IfErr result (λ e. (e ≡ Refusal.Grid) × (bad_grid frame table.entry.family (length table.entry.codes.now) grid print ≡ true)) }
    {
        if bad_grid(frame, table.family, table.codes.len(), grid, print) {
            return Err(Refusal::Grid);
        }
        Ok(Sheet { table, grid, print })
    }

    /// The square of each of the sheet's tags.
    #[tactic(auto, using(tables::proofs::Table::table_edge, tables::proofs::Table::table_border))]
    fn square(&self) -> Square
        ensures { (result.edge ≡ self.now.table.family.edge) × (result.border ≡ self.now.table.family.border) }
    {
        Square {
            edge: self.table.family.edge,
            border: self.table.family.border,
        }
    }

    /// Refusal 16 for an output of so many numbers.
    pub fn check_room(&self, numbers: usize) -> Result<(), Refusal>
        ensures ok { IfOk result (λ done. bad_output self.now.grid numbers ≡ false) }
        ensures refused { IfErr result (λ e. (e ≡ Refusal.Room) × (bad_output self.now.grid numbers ≡ true)) }
    {
        if bad_output(self.grid, numbers) {
            return Err(Refusal::Room);
        }
        Ok(())
    }

    /// The print of the tag at a position: position 0 stands in the lowest row.
    fn position_print(&self, position: usize) -> Print
        requires placed { position < tag_count self.now.grid }
        requires across { self.now.print.x + line_size self.now.table.family self.now.grid self.now.print self.now.grid.columns ≤ 4096 }
        requires down { self.now.print.y + line_size self.now.table.family self.now.grid self.now.print self.now.grid.rows ≤ 4096 }
        ensures { result ≡ position_print self.now.table.family self.now.grid self.now.print position }
    {
        let Grid { rows, columns, gap } = self.grid;
        let row = rows - 1 - position / columns;
        let column = position % columns;
        let step = (self.square().side() + gap) * self.print.cell;
        Print {
            x: self.print.x + column * step,
            y: self.print.y + row * step,
            ..self.print
        }
    }

    /// Fills the canvas with light and draws the table's codes into it, each with its quad written, in the order of positions.
    pub fn paint(&self, canvas: &mut Canvas<'_>, quads: &mut [f32])
        requires placed { bad_end canvas.old.frame self.now.table.family self.now.grid self.now.print ≡ false }
        requires room { bad_output self.now.grid (length quads.old) ≡ false }
        ensures painted { canvas.new.bytes.now ≡ sheet canvas.old.frame self.now.table.family self.now.table.codes.now self.now.grid self.now.print canvas.old.bytes.now }
        ensures quads { quads.new ≡ in_front (sheet_quads self.now.table.family self.now.grid self.now.print) quads.old }
        ensures same_frame { canvas.new.frame ≡ canvas.old.frame }
        ensures same_loan { canvas.new.bytes.ghost_name ≡ canvas.old.bytes.ghost_name }
    {
        let square = self.square();
        canvas.fill(self.print.light);
        // A position tells the code, the print and the place of the quad.
        for position in 0..self.grid.tag_count() {
            let tag = Tag {
                square,
                word: self.table.codes[position],
                print: self.position_print(position),
            };
            canvas.draw_tag(tag);
            points::put_quad(quads, position, tag.quad());
        }
    }
}
