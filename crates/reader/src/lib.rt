//! Quad to tag: the samples of a quad on an 8-bit plane, their levels, the word that they make, and the code that it shows.
#![tactic(auto)]

ghost use Rattle.std.specs.Prelude.{◌≡◌, ◌+◌, ◌*◌, ◌≤◌, ◌<◌, take, is_ok, IfOk, IfErr};
ghost use Rattle.reader.specs.Reading.{samples, samples_inside, levels_of, with_corners, reading};
ghost use Rattle.reader.specs.Answer.{paper_read, paper_reading};
ghost use Rattle.reader.specs.Sampling.{SmallAxes, sample_of};

use places::{Axes, Corners};
use points::Quad;
use refusals::{Picture, Refusal};
use search::Match;
use tables::Family;
use tables::checked::Table;

/// What a reading of a quad answers: a tag with its corners, or the number of a refusal. It is the form that document 01 names, and so no
/// `Result`.
#[derive(Clone, Copy, Debug, PartialEq)]
pub enum Reading {
    Tag {
        id: usize,
        turn: u8,
        differing: u8,
        corners: Quad,
    },
    Refused(u8),
}

impl From<Refusal> for Reading {
    ghost use Rattle.refusals.specs.Numbers.{number_of};
    ghost use Rattle.reader.specs.declared.Reading.TheVariants.{Refused};

    ghost from_gives = { λ refusal reading. reading ≡ Refused (number_of refusal) };

    fn from(refusal: Refusal) -> Reading {
        Reading::Refused(refusal.number())
    }
}

/// The level at the sample of module (i, j), counted from 0 inside the border, where that lies in the picture.
fn sample_at(picture: &Picture, family: Family, axes: Axes, i: usize, j: usize) -> Option<u8>
    requires edge { (0 < family.edge) × (family.edge ≤ 8) }
    requires border { family.border ≤ 4 }
    requires small { SmallAxes axes }
    requires inside { (i < family.edge) × (j < family.edge) }
    ensures { result ≡ sample_of picture.now.bytes.now picture.now.frame family axes (i * family.edge + j) }
{
    let border = family.border as usize;
    let side = tables::side_of(family.edge, family.border);
    let x = axes.x.pixel(side, border + i, border + j);
    let y = axes.y.pixel(side, border + i, border + j);
    if picture.frame.width <= x || picture.frame.height <= y {
        return None;
    }
    Some(picture.level(x, y))
}

/// The levels of the samples, in their order from the first on. Refuses a sample outside the picture.
pub fn sample_levels(picture: &Picture, family: Family, axes: Axes) -> Result<[u8; 64], Refusal>
    requires edge { (0 < family.edge) × (family.edge ≤ 8) }
    requires border { family.border ≤ 4 }
    requires small { SmallAxes axes }
    ensures inside { is_ok result ≡ samples_inside picture.now.frame family axes }
    ensures sampled { IfOk result (λ levels. take (samples family) levels ≡ levels_of picture.now.bytes.now picture.now.frame family axes) }
    ensures refused { IfErr result (λ e. e ≡ Refusal.SampleOutside) }
{
    let edge = family.edge as usize;
    let mut levels = [0; 64];
    for i in 0..edge {
        for j in 0..edge {
            let sample = sample_at(picture, family, axes, i, j);
            levels[i * edge + j] = sample.ok_or(Refusal::SampleOutside)?;
        }
    }
    Ok(levels)
}

/// The code that a quad shows in a picture: the refusals in their order, then what the search finds. Band 10, three unsure modules allowed.
fn read(picture: &Picture, table: &Table, quad: Quad) -> Result<Match, Refusal>
    ensures { with_corners quad (paper_read result) ≡ reading picture.now.bytes.now picture.now.frame table.now.family table.now.codes.now quad }
{
    let corners = Corners::new(quad)?;
    if corners.is_outside(picture.frame.width, picture.frame.height) {
        return Err(Refusal::CornerOutside);
    }
    let family = table.family;
    let levels = sample_levels(picture, family, corners.axes())?;
    let edge = family.edge as usize;
    let bits = levels::bit_code(&levels[..edge * edge], 10, 3)?;
    search::best_tag(bits, family.hamming_distance, table.codes, family.edge)
        .found
        .ok_or(Refusal::Unread)
}

/// A reading of one quad (`try_decode_quad` of the original).
pub fn try_decode_quad(picture: &Picture, table: &Table, quad: Quad) -> Reading
    ensures { paper_reading result ≡ reading picture.now.bytes.now picture.now.frame table.now.family table.now.codes.now quad }
{
    match read(picture, table, quad) {
        Ok(found) => Reading::Tag {
            id: found.id,
            turn: found.turn,
            differing: found.differing,
            corners: points::answer_corners(quad, found.turn),
        },
        Err(refusal) => Reading::from(refusal),
    }
}
