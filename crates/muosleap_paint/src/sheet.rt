//! A whole sheet painted into an 8-bit plane.
ghost use Rattle.std.specs.Prelude.{◌≡◌, false, length};
ghost use Rattle.refusals.specs.Numbers.{done};
ghost use Rattle.refusals.specs.Pixels.{bad_frame};
ghost use Rattle.muosleap_paint.specs.PaintSheet.{painting_of, paint_sheet, paint_sheet_in};

use grid::{Grid, Sheet};
use painter::{Canvas, Print};
use refusals::{Frame, Refusal};
use tables::Family;
use tables::checked::Table;

/// What comes after the plane and the table: the refusals 14, 17 and 16, then the painting.
#[tactic(auto, unfolding(crate::specs::PaintSheet::paint_sheet))]
fn paint_table(
    plane: &mut [u8],
    frame: Frame,
    table: Table,
    grid: Grid,
    print: Print,
    quads: &mut [f32],
) -> Result<(), Refusal>
    requires { bad_frame (length plane.old) frame ≡ false }
    ensures { painting_of (done result) plane.new quads.new ≡ paint_sheet plane.old frame table.entry.family table.entry.codes.now grid print quads.old }
{
    print.check_style()?;
    let sheet = Sheet::new(frame, table, grid, print)?;
    sheet.check_room(quads.len())?;
    let mut canvas = Canvas {
        bytes: plane,
        frame,
    };
    sheet.paint(&mut canvas, quads);
    Ok(())
}

/// The picture filled with light and a grid of the table's codes drawn into it, position 0 lower left, filler left as it is; each
/// tag's quad, from the print's first corner clockwise, as eight numbers in the order of positions, output beyond them left as it is.
/// Refusal 1 for the plane, 6 for the table, 14 for the cell, the turn and the shades, 17 for the grid, 16 for the output. A refused
/// call leaves plane and output as they were.
#[tactic(auto, unfolding(crate::specs::PaintSheet::paint_sheet))]
pub fn paint_sheet(
    plane: &mut [u8],
    frame: Frame,
    family: Family,
    codes: &[u64],
    grid: Grid,
    print: Print,
    quads: &mut [f32],
) -> Result<(), Refusal>
    ensures { painting_of (done result) plane.new quads.new ≡ paint_sheet plane.old frame family codes.now grid print quads.old }
{
    painter::check_plane(plane.len(), frame)?;
    let table = Table::new(family, codes)?;
    paint_table(plane, frame, table, grid, print, quads)
}

/// The same by family number, over the constant tables. Refusal 6 where there is no such family.
#[tactic(auto, unfolding(crate::specs::PaintSheet::paint_sheet, crate::specs::PaintSheet::paint_sheet_in))]
pub fn paint_sheet_in(
    plane: &mut [u8],
    frame: Frame,
    family: u8,
    grid: Grid,
    print: Print,
    quads: &mut [f32],
) -> Result<(), Refusal>
    ensures { painting_of (done result) plane.new quads.new ≡ paint_sheet_in plane.old frame family grid print quads.old }
{
    painter::check_plane(plane.len(), frame)?;
    let table = tag_families::table(family)?;
    paint_table(plane, frame, table, grid, print, quads)
}
