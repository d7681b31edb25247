//! Painting. The plane and a sheet's output are lent on to the entry; a lone tag's quad is written only where accepted.
ghost use Rattle.muosleap_paint.specs.PaintTag.{paint_tag, paint_tag_in};
ghost use Rattle.muosleap_paint.specs.PaintSheet.{paint_sheet, paint_sheet_in};
ghost use Rattle.outputs.specs.Outputs.{held};
ghost use Rattle.muosleap_c.specs.Paintings.{PaintsTag, PaintsSheet};
ghost use Rattle.muosleap_c.specs.Structs.{frame_of, table_of, print_of, grid_of};

use crate::structs;

/// One tag, with the edge and the border lent. Refusals 1, 6 and 14.
#[unsafe(no_mangle)]
pub extern "C" fn muosleap_paint_tag(
    plane: &mut [u8],
    width: usize,
    height: usize,
    pitch: usize,
    edge: u8,
    border: u8,
    word: u64,
    x: usize,
    y: usize,
    cell: usize,
    turn: u8,
    light: u8,
    dark: u8,
    quad: &mut [f32; 8],
) -> u32
    ensures { PaintsTag (paint_tag plane.old (frame_of width height pitch) edge border word (print_of x y cell turn light dark))
        result (held plane) (held quad) }
{
    let frame = structs::frame_of(width, height, pitch);
    let print = structs::print_of(x, y, cell, turn, light, dark);
    let painted = muosleap_paint::painting::paint_tag(plane, frame, edge, border, word, print);
    outputs::put(painted.map(<[f32; 8]>::from), quad)
}

/// The same by family number.
#[unsafe(no_mangle)]
pub extern "C" fn muosleap_paint_tag_in(
    plane: &mut [u8],
    width: usize,
    height: usize,
    pitch: usize,
    family: u8,
    word: u64,
    x: usize,
    y: usize,
    cell: usize,
    turn: u8,
    light: u8,
    dark: u8,
    quad: &mut [f32; 8],
) -> u32
    ensures { PaintsTag (paint_tag_in plane.old (frame_of width height pitch) family word (print_of x y cell turn light dark))
        result (held plane) (held quad) }
{
    let frame = structs::frame_of(width, height, pitch);
    let print = structs::print_of(x, y, cell, turn, light, dark);
    let painted = muosleap_paint::painting::paint_tag_in(plane, frame, family, word, print);
    outputs::put(painted.map(<[f32; 8]>::from), quad)
}

/// A sheet of a lent table. Refusals 1, 6, 14, 17 and 16.
#[unsafe(no_mangle)]
pub extern "C" fn muosleap_paint_sheet(
    plane: &mut [u8],
    width: usize,
    height: usize,
    pitch: usize,
    edge: u8,
    border: u8,
    hamming_distance: u8,
    codes: &[u64],
    rows: usize,
    columns: usize,
    gap: usize,
    x: usize,
    y: usize,
    cell: usize,
    turn: u8,
    light: u8,
    dark: u8,
    quads: &mut [f32],
) -> u32
    ensures { PaintsSheet
        (paint_sheet plane.old (frame_of width height pitch) (table_of edge border hamming_distance) codes.now (grid_of rows columns gap)
        (print_of x y cell turn light dark) quads.old)
        result (held plane) (held quads) }
{
    let frame = structs::frame_of(width, height, pitch);
    let family = structs::table_of(edge, border, hamming_distance);
    let grid = structs::grid_of(rows, columns, gap);
    let print = structs::print_of(x, y, cell, turn, light, dark);
    let sheet = muosleap_paint::sheet::paint_sheet(plane, frame, family, codes, grid, print, quads);
    outputs::number_of(sheet)
}

/// The same by family number.
#[unsafe(no_mangle)]
pub extern "C" fn muosleap_paint_sheet_in(
    plane: &mut [u8],
    width: usize,
    height: usize,
    pitch: usize,
    family: u8,
    rows: usize,
    columns: usize,
    gap: usize,
    x: usize,
    y: usize,
    cell: usize,
    turn: u8,
    light: u8,
    dark: u8,
    quads: &mut [f32],
) -> u32
    ensures { PaintsSheet
        (paint_sheet_in plane.old (frame_of width height pitch) family (grid_of rows columns gap) (print_of x y cell turn light dark) quads.old)
        result (held plane) (held quads) }
{
    let frame = structs::frame_of(width, height, pitch);
    let grid = structs::grid_of(rows, columns, gap);
    let print = structs::print_of(x, y, cell, turn, light, dark);
    let sheet = muosleap_paint::sheet::paint_sheet_in(plane, frame, family, grid, print, quads);
    outputs::number_of(sheet)
}
