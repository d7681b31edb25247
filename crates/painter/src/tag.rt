//! Tags that are painted: which of their cells are light, and where their corners lie.
ghost use Rattle.std.specs.Prelude.{◌≡◌, true, false, ◌+◌, ◌<◌, ◌≤◌, eqb, length, IfOk, IfErr};
ghost use Rattle.tables.specs.Table.{side_of};
ghost use Rattle.painter.specs.Tag.{cell_at, turned_cell, module_bit, is_light, shows_light, size_of};
ghost use Rattle.painter.specs.Part.{row_line};
ghost use Rattle.painter.specs.Corners.{half_before, print_quad};
ghost use Rattle.painter.specs.Printable.{bad_word, bad_style, bad_place, bad_print};

use crate::{Cell, Print, Square, side_of};
use points::{Point, Quad};
use refusals::{Frame, Refusal};

/// A tag's painting, checked but for its place: what refusals 6 and 14 let through.
#[derive(Clone, Copy, Debug, PartialEq, Eq)]
pub struct Tag {
    pub square: Square,
    pub word: u64,
    pub print: Print,
    ghost words: { bad_word square.edge word ≡ false },
    ghost styles: { bad_style print ≡ false },
}

impl Tag {
    /// The tag, or refusal 14 for the word, the cell, the turn, the shades and the place in the frame.
    #[tactic(auto, using(std::proofs::lemmas::Bool::Decides::nat_tests, crate::proofs::Printable::one_word), unfolding(crate::specs::Printable::bad_print))]
    pub fn new(frame: Frame, square: Square, word: u64, print: Print) -> Result<Tag, Refusal>
        ensures ok { IfOk result (λ t. (t.square ≡ square) × (t.word ≡ word) × (t.print ≡ print) × (bad_print frame square.edge square.border word print ≡ false)) }
        ensures refused { IfErr result (λ e. (e ≡ Refusal.Print) × (bad_print frame square.edge square.border word print ≡ true)) }
    {
        if !tables::codes_fit(&[word], square.edge) {
            return Err(Refusal::Print);
        }
        print.check_style()?;
        let tag = Tag {
            square,
            word,
            print,
        };
        if tag.ends_late(frame) {
            return Err(Refusal::Print);
        }
        Ok(tag)
    }

    /// The tag does not end at least one pixel before the right and lower edges.
    fn ends_late(self, frame: Frame) -> bool
        ensures { result ≡ bad_place frame self.square.edge self.square.border self.print }
    {
        let size = self.size();
        crate::ends_late(frame.width, self.print.x, size)
            || crate::ends_late(frame.height, self.print.y, size)
    }

    /// The tag's width and height in pixels.
    pub fn size(self) -> usize
        ensures size { result ≡ size_of self.square.edge self.square.border self.print }
        ensures small { result ≤ 1024 }
    {
        self.square.side() * self.print.cell
    }

    /// The module in row `i` and column `j`, counted from 0 inside the border, is light: its bit of the word is 1.
    fn has_light_module(self, i: usize, j: usize) -> bool
        requires { (i < self.square.edge) × (j < self.square.edge) }
        ensures { result ≡ eqb (module_bit self.square.edge self.word i j) 1 }
    {
        let edge = self.square.edge as usize;
        (self.word >> (edge * edge - 1 - (i * edge + j))) & 1 == 1
    }

    /// The print's cell, one inside the border, is light: it has a light module.
    #[tactic(auto, unfolding(crate::specs::Tag::is_light))]
    fn is_light(self, cell: Cell) -> bool
        requires rows { (self.square.border ≤ cell.row) × (cell.row < self.square.border + self.square.edge) }
        requires columns { (self.square.border ≤ cell.column) × (cell.column < self.square.border + self.square.edge) }
        ensures { result ≡ is_light self.square.edge self.square.border self.word cell }
    {
        let border = self.square.border as usize;
        self.has_light_module(cell.row - border, cell.column - border)
    }

    /// The cell that the picture has in `row` and `column` of the tag, one inside the border, is light.
    fn shows_light(self, row: usize, column: usize) -> bool
        requires rows { (self.square.border ≤ row) × (row < self.square.border + self.square.edge) }
        requires columns { (self.square.border ≤ column) × (column < self.square.border + self.square.edge) }
        ensures { result ≡ shows_light self.square.edge self.square.border self.word self.print (cell_at row column) }
    {
        self.is_light(turned_cell(self.square.side(), self.print.turn, row, column))
    }

    /// A line of the tag's pixels through a row of cells. The border is dark: only modules are tested, and in the border's own rows
    /// nothing is.
    pub(crate) fn write_line(self, line: &mut [u8], row: usize)
        requires inside { row < side_of self.square.edge self.square.border }
        requires wide { length line.old ≡ size_of self.square.edge self.square.border self.print }
        ensures { line.new ≡ row_line self.square.edge self.square.border self.word self.print row }
    {
        let cell = self.print.cell;
        let first = self.square.border as usize;
        let end = first + self.square.edge as usize;
        line.fill(self.print.dark);
        if (first..end).contains(&row) {
            for column in first..end {
                if self.shows_light(row, column) {
                    let start = column * cell;
                    line[start..start + cell].fill(self.print.light);
                }
            }
        }
    }

    /// The tag's outer corners, clockwise from the print's first.
    pub fn quad(self) -> Quad
        requires across { self.print.x + size_of self.square.edge self.square.border self.print ≤ 4096 }
        requires down { self.print.y + size_of self.square.edge self.square.border self.print ≤ 4096 }
        ensures { result ≡ print_quad self.square.edge self.square.border self.print }
    {
        print_quad(self.square.edge, self.square.border, self.print)
    }
}

/// The outer corners of a tag of this edge and border, clockwise from the print's first. It is promised of any edge and border, which a
/// `Square` is not.
pub fn print_quad(edge: u8, border: u8, print: Print) -> Quad
    requires across { print.x + size_of edge border print ≤ 4096 }
    requires down { print.y + size_of edge border print ≤ 4096 }
    ensures { result ≡ print_quad edge border print }
{
    let size = side_of(edge, border) * print.cell;
    let left = half_before(print.x);
    let top = half_before(print.y);
    let right = half_before(print.x + size);
    let bottom = half_before(print.y + size);
    let quad = Quad {
        q0: Point { x: left, y: top },
        q1: Point { x: right, y: top },
        q2: Point {
            x: right,
            y: bottom,
        },
        q3: Point { x: left, y: bottom },
    };
    points::rotate_left(quad, print.turn)
}

/// The print's row and column of the cell that the picture has in `row` and `column`.
fn turned_cell(side: usize, turn: u8, row: usize, column: usize) -> Cell
    requires { (row < side) × (column < side) × (turn ≤ 3) }
    ensures { result ≡ turned_cell side turn (cell_at row column) }
{
    match turn {
        0 => Cell { row, column },
        1 => Cell {
            row: side - 1 - column,
            column: row,
        },
        2 => Cell {
            row: side - 1 - row,
            column: side - 1 - column,
        },
        _ => Cell {
            row: column,
            column: side - 1 - row,
        },
    }
}

/// n - 1/2
fn half_before(n: usize) -> f32
    requires { n ≤ 4096 }
    ensures { result ≡ half_before n }
{
    n as f32 - 0.5
}
