//! Lists of quads: the entries of the list reader, which the original does not have.
ghost use Rattle.std.specs.Prelude.{◌≡◌, cond, length};
ghost use Rattle.refusals.specs.Outcome.{refused};
ghost use Rattle.refusals.specs.Numbers.{outcome};
ghost use Rattle.listing.specs.Listing.{bad_list, listing_of, listing};
ghost use Rattle.muosleap.specs.Quads.{decode_quads, decode_quads_in};

use refusals::{Frame, Picture, Refusal};
use tables::Family;
use tables::checked::Table;

/// What comes after the picture and the table: refusal 16, then the list's reading.
fn read_list(
    picture: &Picture,
    table: &Table,
    quads: &[f32],
    rows: &mut [u64],
    corners: &mut [f32],
) -> Result<usize, Refusal>
    ensures { listing_of (outcome result) rows.new corners.new
        ≡ cond (bad_list (length quads.now) (length rows.old) (length corners.old)) (listing_of (refused 16) rows.old corners.old)
        (listing picture.now.bytes.now picture.now.frame table.now.family table.now.codes.now quads.now rows.old corners.old) }
{
    if listing::bad_list(quads.len(), rows.len(), corners.len()) {
        return Err(Refusal::Room);
    }
    Ok(listing::try_decode_quads(picture, table, quads, rows, corners))
}

/// A row (refusal, id, turn, differing modules) and eight corner numbers for each quad of a list, read with a lent table: how many quads.
/// Refusals 1, 6 and 16; in rows 8 to 13, and 18 for all quads that share their id.
#[tactic(auto, unfolding(crate::specs::Quads::decode_quads))]
pub fn try_decode_quads(
    plane: &[u8],
    frame: Frame,
    family: Family,
    codes: &[u64],
    quads: &[f32],
    rows: &mut [u64],
    corners: &mut [f32],
) -> Result<usize, Refusal>
    ensures { listing_of (outcome result) rows.new corners.new
        ≡ decode_quads plane.now frame family codes.now quads.now rows.old corners.old }
{
    let picture = Picture::new(plane, frame)?;
    let table = Table::new(family, codes)?;
    read_list(&picture, &table, quads, rows, corners)
}

/// The same by family number, over the constant tables. Refusal 6 where there is no such family.
#[tactic(auto, unfolding(crate::specs::Quads::decode_quads_in))]
pub fn try_decode_quads_in(
    plane: &[u8],
    frame: Frame,
    family: u8,
    quads: &[f32],
    rows: &mut [u64],
    corners: &mut [f32],
) -> Result<usize, Refusal>
    ensures { listing_of (outcome result) rows.new corners.new
        ≡ decode_quads_in plane.now frame family quads.now rows.old corners.old }
{
    let picture = Picture::new(plane, frame)?;
    let table = tag_families::table(family)?;
    read_list(&picture, &table, quads, rows, corners)
}
