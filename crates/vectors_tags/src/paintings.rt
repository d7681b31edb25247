//! Frames of a painted tag or sheet, and of a painted tag that is read at its four starts, on planes of some layout.
use crate::fields::TagFields;
use crate::padded::{Layout, Plane};
use crate::quads::Picture;
use crate::sheets::Codes;
use crate::{padded, sheets};
use muosleap_paint::painting::{paint_tag, paint_tag_in};
use refusals::Frame;
use vectors::answers::Corners;
use vectors::{Fields, product};

/// What is painted and then looked at.
#[derive(Clone, Copy, Debug, PartialEq, Eq)]
enum Painting {
    Tag,
    Sheet(Codes),
}

#[derive(Clone, Copy, Debug, PartialEq, Eq)]
enum Kind {
    Painting(Painting),
    /// A tag that is painted and then read.
    Print,
}

impl From<u8> for Kind {
    /// 4 is a sheet by the number of a family, and so is every other number.
    fn from(number: u8) -> Self {
        match number {
            1 => Kind::Painting(Painting::Tag),
            2 => Kind::Print,
            3 => Kind::Painting(Painting::Sheet(Codes::Lent)),
            _ => Kind::Painting(Painting::Sheet(Codes::OfFamily)),
        }
    }
}

/// The answer's number and quad, the digest of the pixels afterwards, and every other byte.
fn is_tag_alike(mut fields: Fields, plane: &mut Plane) -> bool {
    let edge = fields.u8();
    let border = fields.u8();
    let word = fields.u64();
    let answer = paint_tag(plane.bytes, plane.frame, edge, border, word, fields.print());
    let (number, corners) = match answer {
        Ok(quad) => (0, Corners::from(quad)),
        Err(refusal) => (refusal.number(), Corners::all(0.0)),
    };
    let said = fields.u8();
    let seen = plane.seen(said);
    number == said
        && seen.digest == fields.u64()
        && corners == Corners::from(fields.quad())
        && seen.is_kept
}

/// Whether a plane of its own frame and length is packed, and has room in the buffer with another frame.
fn has_room(own: Frame, length: usize, frame: Frame) -> bool {
    own.pitch == own.width
        && length == product(own.width, own.height, 65536)
        && padded::bytes_of(frame) < 65536
}

impl Painting {
    /// Painted on a plane that holds noise.
    fn is_plane_alike(self, fields: Fields, plane: &mut Plane) -> bool {
        plane.fill();
        match self {
            Painting::Tag => is_tag_alike(fields, plane),
            Painting::Sheet(codes) => sheets::is_sheet_alike(codes, fields, plane),
        }
    }

    /// A packed plane is painted at the layout. Any other, and one that has no room so, is painted as it is.
    fn is_alike(self, mut fields: Fields, layout: Layout) -> bool {
        let mut room = [0u8; 65536];
        let own = fields.frame();
        let length = (fields.u32() as usize).min(65536);
        let frame = layout.frame_of(own.width, own.height);
        let (frame, length) = if has_room(own, length, frame) {
            (frame, padded::bytes_of(frame))
        } else {
            (own, length)
        };
        let bytes = &mut room[..length];
        self.is_plane_alike(fields, &mut Plane { frame, bytes })
    }
}

/// A tag that is painted by the number of its family on a plane that holds noise, and read from its four starts.
fn is_print_alike(mut fields: Fields, layout: Layout) -> bool {
    let mut room = [0u8; 65536];
    let width = usize::from(fields.u8());
    let height = usize::from(fields.u8());
    let frame = layout.frame_of(width, height);
    let bytes = &mut room[..padded::bytes_of(frame)];
    let mut plane = Plane { frame, bytes };
    let family = fields.u8();
    let word = fields.u64();
    plane.fill();
    let Ok(quad) = paint_tag_in(plane.bytes, frame, family, word, fields.small_print()) else {
        return false;
    };
    if !plane.seen(0).is_kept {
        return false;
    }
    let picture = Picture {
        plane: plane.bytes,
        frame,
        family,
    };
    picture.are_starts_alike(quad, fields)
}

pub fn is_alike(record: &[u8], layout: Layout) -> bool {
    let mut fields = Fields::new(record);
    match Kind::from(fields.u8()) {
        Kind::Painting(painting) => painting.is_alike(fields, layout),
        Kind::Print => is_print_alike(fields, layout),
    }
}
