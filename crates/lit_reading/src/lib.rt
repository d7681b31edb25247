//! Ticket 8 of 02 said of the code: functions that paint a tag, or a sheet, work out whether its samples are lit well enough in a picture that
//! they are lent, and read them there. They are no public entries, but take any input as these do, in plain slices. specs/Said.antt says what
//! is proved of them.
#![tactic(auto)]

ghost use Rattle.std.specs.Prelude.{◌≡◌, ◌<◌, false, length, take};
ghost use Rattle.lists.specs.Each.{each};
ghost use Rattle.refusals.specs.Outcome.{refused};
ghost use Rattle.refusals.specs.Numbers.{number_of};
ghost use Rattle.levels.specs.Levels.{middle_of};
ghost use Rattle.places.specs.Place.{axes_of};
ghost use Rattle.grid.specs.Quads.{tag_count};
ghost use Rattle.reader.specs.Reading.{samples, levels_of};
ghost use Rattle.reader.specs.Answer.{paper_reading};
ghost use Rattle.paper.specs.Light.{clears, clears_at, lit_levels, is_lit};
ghost use Rattle.lit_reading.specs.Said.{LitThenRead, SheetLitThenRead};
ghost use Rattle.lit_reading.specs.Sampleable.{Sampleable, PictureRead};

use grid::Grid;
use muosleap_paint::painting::paint_tag;
use muosleap_paint::sheet::paint_sheet;
use painter::Print;
use places::Corners;
use points::Quad;
use reader::Reading;
use refusals::{Frame, Picture, Refusal};
use tables::Family;

/// A reading of a picture, and whether the painted tag's samples are lit there as ticket 8 asks: two answers, and not one with a flag,
/// since a picture that is not lit so may be read all the same.
#[derive(Clone, Copy, Debug, PartialEq)]
pub struct LitReading {
    pub lit: bool,
    pub reading: Reading,
}

/// A level is at least 10 above the middle where its module was painted light, at least 10 below it where it was painted dark.
fn level_clears(middle: u8, painted_light: bool, level: u8) -> bool
    ensures { result ≡ clears middle painted_light level }
{
    if painted_light {
        u32::from(middle) + 10 <= u32::from(level)
    } else {
        u32::from(level) + 10 <= u32::from(middle)
    }
}

/// Every level clears the middle so; `painted` is what was painted at each.
fn all_clear(middle: u8, light: u8, painted: &[u8], levels: &[u8]) -> bool
    requires { length painted.now ≡ length levels.now }
    ensures { result ≡ each (length levels.now) (clears_at middle light painted.now levels.now) }
{
    painted.iter().zip(levels).all(|(&shown, &level)| level_clears(middle, shown == light, level))
}

/// They clear their own middle, and the greatest and the least of them are at least 50 apart.
#[tactic(auto, unfolding(paper::specs::Light::lit_levels))]
fn levels_lit(light: u8, painted: &[u8], levels: &[u8]) -> bool
    requires { (0 < length levels.now) × (length painted.now ≡ length levels.now) }
    ensures { result ≡ lit_levels (middle_of levels.now) light painted.now levels.now }
{
    let range = levels::range_of(levels);
    50 <= range.contrast() && all_clear(range.middle(), light, painted, levels)
}

/// The levels of a quad's samples, from the first on. What is asked speaks of picture and quad together, and each pair is met once, so no
/// type holds it.
fn quad_levels(picture: &Picture, family: Family, quad: Quad) -> [u8; 64]
    requires { Sampleable picture.now.bytes.now picture.now.frame family quad }
    ensures { take (samples family) result ≡ levels_of picture.now.bytes.now picture.now.frame family (axes_of quad) }
{
    let axes = Corners::new(quad).unwrap().axes();
    reader::sample_levels(picture, family, axes).unwrap()
}

/// Whether the samples of a quad are lit well enough in a picture, by what the painted picture shows at them.
fn is_lit(shown: &Picture, light: u8, family: Family, quad: Quad, picture: &Picture) -> bool
    requires shown { Sampleable shown.now.bytes.now shown.now.frame family quad }
    requires picture { Sampleable picture.now.bytes.now picture.now.frame family quad }
    ensures { result ≡ is_lit shown.now.bytes.now shown.now.frame light family quad picture.now.bytes.now picture.now.frame }
{
    let edge = family.edge as usize;
    let painted = quad_levels(shown, family, quad);
    let levels = quad_levels(picture, family, quad);
    levels_lit(light, &painted[..edge * edge], &levels[..edge * edge])
}

/// Reads one start of a painted quad in a picture of the painted plane's width and height, and works out whether its samples are lit there.
fn read_lit(
    shown: &Picture,
    light: u8,
    family: Family,
    codes: &[u64],
    quad: Quad,
    picture: &[u8],
    pitch: usize,
    start: u8,
) -> LitReading
    requires { Sampleable shown.now.bytes.now shown.now.frame family quad }
    ensures { PictureRead shown.now.bytes.now shown.now.frame light family codes.now quad picture.now pitch start result.lit (paper_reading result.reading) }
{
    let seen = Frame {
        pitch,
        ..shown.frame
    };
    let turned = points::rotate_left(quad, start);
    let reading = muosleap::detector::try_decode_quad(picture, seen, family, codes, turned);
    // A match, since in its arm it is known of what the picture was made.
    let lit = match Picture::new(picture, seen) {
        Ok(picture) => is_lit(shown, light, family, quad, &picture),
        Err(_) => false,
    };
    LitReading { lit, reading }
}

/// What there is to say of a picture where the painter refuses.
fn unpainted(refusal: Refusal) -> LitReading
    ensures { (result.lit ≡ false) × (paper_reading result.reading ≡ refused (number_of refusal)) }
{
    LitReading {
        lit: false,
        reading: Reading::from(refusal),
    }
}

/// Paints the word with the table's edge and border, and reads one start of the painter's quad in a picture of the plane's width and height,
/// at a pitch of its own. Where the painter refuses, the answer is its number.
pub fn paint_then_read_lit(
    plane: &mut [u8],
    frame: Frame,
    family: Family,
    codes: &[u64],
    word: u64,
    print: Print,
    picture: &[u8],
    pitch: usize,
    start: u8,
) -> LitReading
    ensures { LitThenRead plane.old frame family codes.now word print picture.now pitch start
        result.lit (paper_reading result.reading) plane.new }
{
    match paint_tag(plane, frame, family.edge, family.border, word, print) {
        Ok(quad) => {
            let shown = Picture {
                bytes: plane,
                frame,
            };
            read_lit(
                &shown,
                print.light,
                family,
                codes,
                quad,
                picture,
                pitch,
                start,
            )
        }
        Err(refusal) => unpainted(refusal),
    }
}

/// Paints a sheet, and reads one start of the quad that stands at a position of it in such a picture. Where the painter refuses, the answer
/// is its number.
pub fn paint_sheet_then_read_lit(
    plane: &mut [u8],
    frame: Frame,
    family: Family,
    codes: &[u64],
    grid: Grid,
    print: Print,
    quads: &mut [f32],
    position: usize,
    picture: &[u8],
    pitch: usize,
    start: u8,
) -> LitReading
    requires { position < tag_count grid }
    ensures { SheetLitThenRead plane.old frame family codes.now grid print quads.old position picture.now pitch start
        result.lit (paper_reading result.reading) plane.new quads.new }
{
    match paint_sheet(plane, frame, family, codes, grid, print, quads) {
        Ok(()) => {
            let quad = points::quad_at(quads, position);
            let shown = Picture {
                bytes: plane,
                frame,
            };
            read_lit(
                &shown,
                print.light,
                family,
                codes,
                quad,
                picture,
                pitch,
                start,
            )
        }
        Err(refusal) => unpainted(refusal),
    }
}
