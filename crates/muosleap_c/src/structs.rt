//! What readings and paintings share: the structs made of C's numbers, each in one place. The two sides of a float plane are written
//! out where they come.
ghost use Rattle.std.specs.Prelude.{◌≡◌};
ghost use Rattle.muosleap_c.specs.Structs.{frame_of, table_of, print_of, grid_of};

use grid::Grid;
use painter::Print;
use refusals::Frame;
use tables::Family;

/// The description of an 8-bit plane.
pub fn frame_of(width: usize, height: usize, pitch: usize) -> Frame
    ensures { result ≡ frame_of width height pitch }
{
    Frame {
        width,
        height,
        pitch,
    }
}

/// What a reader or a painter has to know of a lent table.
pub fn table_of(edge: u8, border: u8, hamming_distance: u8) -> Family
    ensures { result ≡ table_of edge border hamming_distance }
{
    Family {
        edge,
        border,
        hamming_distance,
    }
}

/// What a painting takes.
pub fn print_of(x: usize, y: usize, cell: usize, turn: u8, light: u8, dark: u8) -> Print
    ensures { result ≡ print_of x y cell turn light dark }
{
    Print {
        x,
        y,
        cell,
        turn,
        light,
        dark,
    }
}

/// The grid of a sheet.
pub fn grid_of(rows: usize, columns: usize, gap: usize) -> Grid
    ensures { result ≡ grid_of rows columns gap }
{
    Grid { rows, columns, gap }
}
