//! Frames of one quad, of a list of quads, of the corner test, and of a painted tag in a picture. The picture is the frame that was
//! lent, at some layout.
ghost use Rattle.std.specs.Prelude.{◌≡◌, ◌≤◌, length};

use crate::fields::TagFields;
use crate::padded::Layout;
use crate::{light, padded};
use listing::ROW_SIZE;
use muosleap::detector::{try_decode_quad, try_decode_quad_in};
use muosleap::quads::{try_decode_quads, try_decode_quads_in};
use points::{QUAD_SIZE, Quad, rotate_left};
use refusals::{Frame, Refusal};
use tables::Family;
use vectors::answers::{Answer, Corners, number_of};
use vectors::floats::Samples;
use vectors::frames::UnknownKind;
use vectors::{Fields, product};

#[derive(Clone, Copy, Debug, PartialEq, Eq)]
enum Kind {
    Quad,
    List,
    Corners,
    QuadNumber,
    ListNumber,
    Light,
}

impl TryFrom<u8> for Kind {
    type Error = UnknownKind;

    fn try_from(number: u8) -> Result<Self, UnknownKind> {
        match number {
            1 => Ok(Kind::Quad),
            2 => Ok(Kind::List),
            3 => Ok(Kind::Corners),
            4 => Ok(Kind::QuadNumber),
            5 => Ok(Kind::ListNumber),
            6 => Ok(Kind::Light),
            _ => Err(UnknownKind(number)),
        }
    }
}

/// The frame of a picture that was lent, and the layout at which it is read.
#[derive(Clone, Copy)]
pub struct Lent<'a> {
    pub frame: &'a [u8],
    pub layout: Layout,
}

impl Lent<'_> {
    /// The picture, which stands behind its width and height, laid out in `room`.
    pub fn picture<'p>(self, family: u8, room: &'p mut [u8; 65536]) -> Picture<'p> {
        let mut fields = Fields::new(self.frame);
        fields.u8();
        let width = usize::from(fields.u16());
        let height = usize::from(fields.u16());
        let frame = self.layout.frame_of(width, height);
        let plane = &mut room[..padded::bytes_of(frame)];
        self.layout.lay_out(fields.rest(), frame, plane);
        Picture {
            plane,
            frame,
            family,
        }
    }
}

/// A picture whose tags are of the family of a number.
#[derive(Clone, Copy)]
pub struct Picture<'a> {
    pub plane: &'a [u8],
    pub frame: Frame,
    pub family: u8,
}

/// Whether the test holds at each start of a quad, with the next fields of a frame.
pub fn at_all_starts<F: Fn(Quad, &mut Fields) -> bool>(
    quad: Quad,
    mut fields: Fields,
    test: F,
) -> bool
    requires { F.IsAlwaysCallable test }
{
    for start in 0..4u8 {
        if !test(rotate_left(quad, start), &mut fields) {
            return false;
        }
    }
    true
}

impl Picture<'_> {
    /// Whether a quad is read as the next answer says.
    fn is_reading_alike(&self, quad: Quad, fields: &mut Fields) -> bool {
        Answer::from(try_decode_quad_in(self.plane, self.frame, self.family, quad))
            == fields.answer()
    }

    /// The four starts of a quad, with an answer each.
    pub fn are_starts_alike(&self, quad: Quad, fields: Fields) -> bool {
        at_all_starts(
            quad,
            fields,
            |quad, fields| self.is_reading_alike(quad, fields),
        )
    }

    /// Reads a list: how many rows it has, or why it is refused.
    pub fn read_list(
        &self,
        quads: &[f32],
        rows: &mut [u64],
        corners: &mut [f32],
    ) -> Result<usize, Refusal> {
        try_decode_quads_in(self.plane, self.frame, self.family, quads, rows, corners)
    }

    /// The outputs that are lent to the reader are two numbers longer than they need to be.
    fn is_list_alike(&self, mut fields: Fields) -> bool {
        let mut quads = [0.0f32; 248];
        let mut rows = [7u64; 128];
        let mut corners = [7.0f32; 256];
        let n = usize::from(fields.u8()).min(31);
        let quads = &mut quads[..QUAD_SIZE * n];
        Samples::Each(fields.take(4 * QUAD_SIZE * n)).fill(quads);
        let answer = self.read_list(
            quads,
            &mut rows[..ROW_SIZE * n + 2],
            &mut corners[..QUAD_SIZE * n + 2],
        );
        answer.is_ok() && are_rows_alike(fields, n, &rows, &corners)
    }
}

/// A row that no call wrote, as are all before it.
fn untouched() -> Answer {
    Answer {
        refusal: 7,
        id: 7,
        turn: 7,
        differing: 7,
        corners: Corners::all(7.0),
    }
}

/// After a list of `n` quads, with an answer for each. The rows past them are as before the call.
fn are_rows_alike(mut fields: Fields, n: usize, rows: &[u64], corners: &[f32]) -> bool {
    for q in 0..rows.len() / ROW_SIZE {
        let expected = if q < n { fields.answer() } else { untouched() };
        if Answer::of_row(rows, corners, q) != Some(expected) {
            return false;
        }
    }
    true
}

/// One quad on the picture that was lent.
fn is_quad_alike(mut fields: Fields, lent: Lent) -> bool {
    let mut room = [0u8; 65536];
    let picture = lent.picture(fields.u8(), &mut room);
    picture.is_reading_alike(fields.quad(), &mut fields)
}

/// A list of quads on the picture that was lent.
fn is_list_alike(mut fields: Fields, lent: Lent) -> bool {
    let mut room = [0u8; 65536];
    let picture = lent.picture(fields.u8(), &mut room);
    picture.is_list_alike(fields)
}

/// The corner test alone: its refusal where a corner is outside, and something else where not.
fn are_corners_alike(mut fields: Fields) -> bool {
    let pixels = [0u8; 4096];
    let width = usize::from(fields.u16());
    let height = usize::from(fields.u16());
    let is_outside = fields.u8() != 0;
    let answer = Answer::from(try_decode_quad_in(
        &pixels[..product(width, height, 4096)],
        refusals::packed_frame(width, height),
        0,
        fields.quad(),
    ));
    let outside = Answer::refused(Refusal::CornerOutside.number());
    (answer == outside) == is_outside
}

/// Which number a call answers for one quad of a plane of equal bytes, with a table of equal codes.
fn is_number_alike(mut fields: Fields) -> bool {
    let pixels = [9u8; 8200];
    let frame = fields.frame();
    let pixels = &pixels[..(fields.u32() as usize).min(8200)];
    let family = fields.family();
    let codes = [fields.u64(); 1025];
    let codes = &codes[..usize::from(fields.u16()).min(1025)];
    let said = fields.u8();
    let answer = try_decode_quad(pixels, frame, family, codes, fields.quad());
    Answer::from(answer).refusal == u64::from(said)
}

/// The same for a list of quads that are one point. A refused list leaves the outputs as they were.
fn is_list_number_alike(mut fields: Fields) -> bool {
    let pixels = [9u8; 8200];
    let quads = [1.0f32; 8200];
    let mut rows = [7u64; 4100];
    let mut corners = [7.0f32; 8201];
    let frame = fields.frame();
    let pixels = &pixels[..(fields.u32() as usize).min(8200)];
    let family = Family {
        edge: fields.u8(),
        border: 2,
        hamming_distance: 1,
    };
    let number = number_of(try_decode_quads(
        pixels,
        frame,
        family,
        &[0],
        &quads[..usize::from(fields.u16()).min(8200)],
        &mut rows[..usize::from(fields.u16()).min(4100)],
        &mut corners[..usize::from(fields.u16()).min(8201)],
    ));
    number == fields.u8() && (number == 0 || are_rows_alike(fields, 0, &rows, &corners))
}

pub fn is_alike(frame: &[u8], lent: Lent) -> Result<bool, UnknownKind> {
    let mut fields = Fields::new(frame);
    Ok(match Kind::try_from(fields.u8())? {
        Kind::Quad => is_quad_alike(fields, lent),
        Kind::List => is_list_alike(fields, lent),
        Kind::Corners => are_corners_alike(fields),
        Kind::QuadNumber => is_number_alike(fields),
        Kind::ListNumber => is_list_number_alike(fields),
        Kind::Light => light::is_alike(fields, lent),
    })
}
