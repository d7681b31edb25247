//! Tags painted into an 8-bit plane.
#![tactic(auto, using(std::proofs::lemmas::Bool::Decides::nat_tests))]

mod canvas;
mod tag;

ghost use Rattle.std.specs.Prelude.{◌≡◌, true, false, ◌||◌, IfOk, IfErr};
ghost use Rattle.tables.specs.Table.{bad_edge, bad_border, side_of};
ghost use Rattle.painter.specs.Printable.{bad_style, ends_late};

pub use canvas::{Canvas, check_plane};
use refusals::Refusal;
pub use tables::side_of;
pub use tag::{Tag, print_quad};

/// What a painting takes: the upper left pixel of the tag, or of a sheet's grid, the pixels of a cell's side, the turn and the two
/// shades.
#[derive(Clone, Copy, Debug, PartialEq, Eq)]
pub struct Print {
    pub x: usize,
    pub y: usize,
    pub cell: usize,
    pub turn: u8,
    pub light: u8,
    pub dark: u8,
}

impl Print {
    /// Refusal 14 for the cell, the turn and the shades.
    pub fn check_style(self) -> Result<(), Refusal>
        ensures ok { IfOk result (λ done. bad_style self ≡ false) }
        ensures refused { IfErr result (λ e. (e ≡ Refusal.Print) × (bad_style self ≡ true)) }
    {
        if bad_style(self) {
            return Err(Refusal::Print);
        }
        Ok(())
    }
}

fn bad_style(print: Print) -> bool
    ensures { result ≡ bad_style print }
{
    tables::is_outside(1, 64, print.cell)
        || 3 < print.turn
        || print.light.saturating_sub(print.dark) < 50
}

/// A cell of a tag's square, borders included, by its row and column.
#[derive(Clone, Copy, Debug, PartialEq, Eq)]
pub struct Cell {
    pub row: usize,
    pub column: usize,
}

/// The cells of a tag's square, checked: `edge` of them in a row of modules, and `border` of them on each side.
#[derive(Clone, Copy, Debug, PartialEq, Eq)]
pub struct Square {
    pub edge: u8,
    pub border: u8,
    ghost edges: { bad_edge edge ≡ false },
    ghost borders: { bad_border border ≡ false },
}

impl Square {
    /// The square, or refusal 6 for the edge and the border.
    pub fn new(edge: u8, border: u8) -> Result<Square, Refusal>
        ensures ok { IfOk result (λ s. (s.edge ≡ edge) × (s.border ≡ border)) }
        ensures refused { IfErr result (λ e. (e ≡ Refusal.Table) × ((bad_edge edge || bad_border border) ≡ true)) }
    {
        if tables::bad_edge(edge) || tables::bad_border(border) {
            return Err(Refusal::Table);
        }
        Ok(Square { edge, border })
    }

    /// The cells in a row of the square.
    pub fn side(self) -> usize
        ensures { result ≡ side_of self.edge self.border }
    {
        side_of(self.edge, self.border)
    }
}

/// In a line of `pixels`, `size` of them from `at` on leave not one behind them.
pub fn ends_late(pixels: usize, at: usize, size: usize) -> bool
    ensures { result ≡ ends_late pixels at size }
{
    pixels.saturating_sub(size) <= at
}
