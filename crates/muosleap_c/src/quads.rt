//! Quads and lists of quads.
ghost use Rattle.reader.specs.Answer.{paper_reading};
ghost use Rattle.points.specs.Numbers.{quad_at};
ghost use Rattle.muosleap.specs.Quad.{decode_quad, decode_quad_in};
ghost use Rattle.muosleap.specs.Quads.{decode_quads, decode_quads_in};
ghost use Rattle.outputs.specs.Outputs.{held};
ghost use Rattle.muosleap_c.specs.Tags.{ReadsTag, ReadsTags};
ghost use Rattle.muosleap_c.specs.Structs.{frame_of, table_of};

use crate::structs;
use reader::Reading;

/// A reading's outputs.
fn put_tag(
    read: Reading,
    id: &mut usize,
    turn: &mut u8,
    differing: &mut u8,
    corners: &mut [f32; 8],
) -> u32
    ensures { ReadsTag (paper_reading read) result (held id) (held turn) (held differing) (held corners) }
{
    match read {
        Reading::Tag {
            id: own_id,
            turn: own_turn,
            differing: own_differing,
            corners: own_corners,
        } => {
            *id = own_id;
            *turn = own_turn;
            *differing = own_differing;
            *corners = <[f32; 8]>::from(own_corners);
            0
        }
        Reading::Refused(number) => u32::from(number),
    }
}

/// A reading of one quad with a lent table. Refusals 1, 6, and 8 to 13.
#[unsafe(no_mangle)]
pub extern "C" fn muosleap_try_decode_quad(
    plane: &[u8],
    width: usize,
    height: usize,
    pitch: usize,
    edge: u8,
    border: u8,
    hamming_distance: u8,
    codes: &[u64],
    quad: &[f32; 8],
    id: &mut usize,
    turn: &mut u8,
    differing: &mut u8,
    corners: &mut [f32; 8],
) -> u32
    ensures { ReadsTag (decode_quad plane.now (frame_of width height pitch) (table_of edge border hamming_distance)
        codes.now (quad_at quad.now 0)) result (held id) (held turn) (held differing) (held corners) }
{
    let family = structs::table_of(edge, border, hamming_distance);
    let frame = structs::frame_of(width, height, pitch);
    let lent = points::quad_at(quad, 0);
    let read = muosleap::detector::try_decode_quad(plane, frame, family, codes, lent);
    put_tag(read, id, turn, differing, corners)
}

/// The same by family number.
#[unsafe(no_mangle)]
pub extern "C" fn muosleap_try_decode_quad_in(
    plane: &[u8],
    width: usize,
    height: usize,
    pitch: usize,
    family: u8,
    quad: &[f32; 8],
    id: &mut usize,
    turn: &mut u8,
    differing: &mut u8,
    corners: &mut [f32; 8],
) -> u32
    ensures { ReadsTag (decode_quad_in plane.now (frame_of width height pitch)
        family (quad_at quad.now 0)) result (held id) (held turn) (held differing) (held corners) }
{
    let frame = structs::frame_of(width, height, pitch);
    let lent = points::quad_at(quad, 0);
    let read = muosleap::detector::try_decode_quad_in(plane, frame, family, lent);
    put_tag(read, id, turn, differing, corners)
}

/// A list's reading with a lent table; a refused call leaves rows and corners as they were. Refusals 1, 6 and 16.
#[unsafe(no_mangle)]
pub extern "C" fn muosleap_try_decode_quads(
    plane: &[u8],
    width: usize,
    height: usize,
    pitch: usize,
    edge: u8,
    border: u8,
    hamming_distance: u8,
    codes: &[u64],
    quads: &[f32],
    rows: &mut [u64],
    corners: &mut [f32],
) -> u32
    ensures { ReadsTags
        (decode_quads plane.now (frame_of width height pitch) (table_of edge border hamming_distance) codes.now
        quads.now rows.old corners.old)
        result (held rows) (held corners) }
{
    let family = structs::table_of(edge, border, hamming_distance);
    let frame = structs::frame_of(width, height, pitch);
    let listed = muosleap::quads::try_decode_quads(
        plane, frame, family, codes, quads, rows, corners,
    );
    outputs::number_of(listed)
}

/// The same by family number.
#[unsafe(no_mangle)]
pub extern "C" fn muosleap_try_decode_quads_in(
    plane: &[u8],
    width: usize,
    height: usize,
    pitch: usize,
    family: u8,
    quads: &[f32],
    rows: &mut [u64],
    corners: &mut [f32],
) -> u32
    ensures { ReadsTags
        (decode_quads_in plane.now (frame_of width height pitch) family quads.now rows.old corners.old)
        result (held rows) (held corners) }
{
    let frame = structs::frame_of(width, height, pitch);
    let listed = muosleap::quads::try_decode_quads_in(plane, frame, family, quads, rows, corners);
    outputs::number_of(listed)
}
