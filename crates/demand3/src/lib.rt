//! Demand 3 said of the code: functions that paint a tag and then read it, alone and in a list of its own, and that read the four starts of
//! a quad; and 02's tickets 3 and 4: one that paints a sheet and reads a quad of it, and one that paints a sheet and reads the list of all
//! its quads. They are no public entries, but take any input as these do, in plain slices. specs/Said.antt and specs/Sheet.antt say what is
//! proved of them.
#![tactic(auto)]

ghost use Rattle.std.specs.Prelude.{◌≡◌, ◌<◌};
ghost use Rattle.refusals.specs.Numbers.{outcome};
ghost use Rattle.points.specs.Turned.{turned_left};
ghost use Rattle.grid.specs.Quads.{tag_count};
ghost use Rattle.listing.specs.Listing.{listing_of};
ghost use Rattle.reader.specs.Answer.{paper_reading};
ghost use Rattle.muosleap.specs.Quad.{decode_quad};
ghost use Rattle.demand3.specs.Sheet.{SheetThenRead, SheetThenListed};
ghost use Rattle.demand3.specs.Said.{PaintedThenRead, StartsRead, StartListed};

use grid::Grid;
use muosleap::detector::try_decode_quad;
use muosleap::quads::try_decode_quads;
use muosleap_paint::painting::paint_tag;
use muosleap_paint::sheet::paint_sheet;
use painter::Print;
use points::{QUAD_SIZE, Quad};
use reader::Reading;
use refusals::{Frame, Refusal};
use tables::Family;

/// The readings of the four starts of a quad, start 0 first.
#[derive(Clone, Copy, Debug, PartialEq)]
pub struct Starts {
    pub s0: Reading,
    pub s1: Reading,
    pub s2: Reading,
    pub s3: Reading,
}

/// Reads one start of a quad.
fn read_start(
    plane: &[u8],
    frame: Frame,
    family: Family,
    codes: &[u64],
    quad: Quad,
    start: u8,
) -> Reading
    ensures { paper_reading result ≡ decode_quad plane.now frame family codes.now (turned_left start quad) }
{
    let turned = points::rotate_left(quad, start);
    try_decode_quad(plane, frame, family, codes, turned)
}

/// Paints the word with the table's edge and border, and reads one start of the painter's quad on the plane as the painter left
/// it. Where the painter refuses, the answer is its number.
pub fn paint_then_read(
    plane: &mut [u8],
    frame: Frame,
    family: Family,
    codes: &[u64],
    word: u64,
    print: Print,
    start: u8,
) -> Reading
    ensures { PaintedThenRead plane.old frame family codes.now word print start (paper_reading result) plane.new }
{
    match paint_tag(plane, frame, family.edge, family.border, word, print) {
        Ok(quad) => read_start(plane, frame, family, codes, quad, start),
        Err(refusal) => Reading::from(refusal),
    }
}

/// Reads one quad from each of its four corners.
pub fn read_starts(plane: &[u8], frame: Frame, family: Family, codes: &[u64], quad: Quad) -> Starts
    ensures { StartsRead plane.now frame family codes.now quad (paper_reading result.s0) (paper_reading result.s1) (paper_reading result.s2) (paper_reading result.s3) }
{
    Starts {
        s0: read_start(plane, frame, family, codes, quad, 0),
        s1: read_start(plane, frame, family, codes, quad, 1),
        s2: read_start(plane, frame, family, codes, quad, 2),
        s3: read_start(plane, frame, family, codes, quad, 3),
    }
}

/// Paints the word with the table's edge and border, and reads one start of the painter's quad in a list of its own, on the plane as
/// the painter left it. Where the painter refuses, the answer is its number.
pub fn list_start(
    plane: &mut [u8],
    frame: Frame,
    family: Family,
    codes: &[u64],
    word: u64,
    print: Print,
    start: u8,
    rows: &mut [u64],
    corners: &mut [f32],
) -> Result<usize, Refusal>
    ensures { StartListed plane.old frame family codes.now word print start rows.old corners.old
        plane.new (listing_of (outcome result) rows.new corners.new) }
{
    let quad = paint_tag(plane, frame, family.edge, family.border, word, print)?;
    let mut list = [0.0; QUAD_SIZE];
    points::put_quad(&mut list, 0, points::rotate_left(quad, start));
    try_decode_quads(plane, frame, family, codes, &list, rows, corners)
}

/// Paints a sheet, and reads one start of the quad that stands at a position of it, on the plane as the painter left it. Where the
/// painter refuses, the answer is its number.
pub fn paint_sheet_then_read(
    plane: &mut [u8],
    frame: Frame,
    family: Family,
    codes: &[u64],
    grid: Grid,
    print: Print,
    quads: &mut [f32],
    position: usize,
    start: u8,
) -> Reading
    requires { position < tag_count grid }
    ensures { SheetThenRead plane.old frame family codes.now grid print quads.old position start
        (paper_reading result) plane.new quads.new }
{
    match paint_sheet(plane, frame, family, codes, grid, print, quads) {
        Ok(()) => {
            let quad = points::quad_at(quads, position);
            read_start(plane, frame, family, codes, quad, start)
        }
        Err(refusal) => Reading::from(refusal),
    }
}

/// Paints a sheet, and reads the list of all its quads as the painter wrote them, on the plane as it left it. Where the painter refuses,
/// the answer is its number.
pub fn paint_sheet_then_list(
    plane: &mut [u8],
    frame: Frame,
    family: Family,
    codes: &[u64],
    grid: Grid,
    print: Print,
    quads: &mut [f32],
    rows: &mut [u64],
    corners: &mut [f32],
) -> Result<usize, Refusal>
    ensures { SheetThenListed plane.old frame family codes.now grid print quads.old rows.old corners.old
        plane.new quads.new (listing_of (outcome result) rows.new corners.new) }
{
    paint_sheet(plane, frame, family, codes, grid, print, quads)?;
    let list = &quads[..QUAD_SIZE * (grid.rows * grid.columns)];
    try_decode_quads(plane, frame, family, codes, list, rows, corners)
}
