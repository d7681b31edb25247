//! Frames of a painted tag and a picture of it, the frame that was lent, at some layout: whether the tag is lit well enough in the
//! picture, and what its four starts read there, alone and each in a list of its own.
use crate::fields::TagFields;
use crate::padded;
use crate::padded::Layout;
use crate::quads::{Lent, Picture, at_all_starts};
use listing::ROW_SIZE;
use lit_reading::paint_then_read_lit;
use muosleap_paint::painting::paint_tag_in;
use painter::Print;
use points::{QUAD_SIZE, Quad};
use refusals::Frame;
use vectors::Fields;
use vectors::answers::Answer;

/// One quad, in a list of its own, has the row that the next answer says.
fn is_list_alike(picture: &Picture, quad: Quad, fields: &mut Fields) -> bool {
    let mut list = [0.0f32; QUAD_SIZE];
    let mut rows = [7u64; ROW_SIZE];
    let mut corners = [7.0f32; QUAD_SIZE];
    points::put_quad(&mut list, 0, quad);
    picture.read_list(&list, &mut rows, &mut corners).is_ok()
        && Answer::of_row(&rows, &corners, 0) == Some(fields.answer())
}

/// A tag to be painted: its word, its print, and the frame of a plane that has the picture's width and height, and no filler.
#[derive(Clone, Copy)]
struct Painted {
    word: u64,
    print: Print,
    frame: Frame,
}

impl Painted {
    /// The tag is lit or not, as is said, and its first start reads as the frame says.
    fn is_lit_as_said(&self, mut fields: Fields, plane: &mut [u8], picture: &Picture) -> bool {
        let Ok(table) = tag_families::table(picture.family) else {
            return false;
        };
        let read = paint_then_read_lit(
            plane,
            self.frame,
            table.family,
            table.codes,
            self.word,
            self.print,
            picture.plane,
            picture.frame.pitch,
            0,
        );
        let is_lit = fields.u8() != 0;
        read.lit == is_lit && Answer::from(read.reading) == fields.answer()
    }

    /// All starts of the painted tag read as the frame says, alone and in lists of their own.
    fn is_read_as_said(&self, fields: Fields, plane: &mut [u8], picture: &Picture) -> bool {
        let painted = paint_tag_in(plane, self.frame, picture.family, self.word, self.print);
        let Ok(quad) = painted else {
            return false;
        };
        picture.are_starts_alike(quad, fields)
            && at_all_starts(
                quad,
                fields,
                |quad, fields| is_list_alike(picture, quad, fields),
            )
    }
}

/// A tag, painted and looked for in the picture that was lent.
pub fn is_alike(mut fields: Fields, lent: Lent) -> bool {
    let mut plane = [0u8; 65536];
    let mut room = [0u8; 65536];
    let picture = lent.picture(fields.u8(), &mut room);
    let Frame { width, height, .. } = picture.frame;
    let tag = Painted {
        word: fields.u64(),
        print: fields.small_print(),
        frame: Layout::Packed.frame_of(width, height),
    };
    let plane = &mut plane[..padded::bytes_of(tag.frame)];
    if !tag.is_lit_as_said(fields, plane, &picture) {
        return false;
    }
    fields.u8();
    tag.is_read_as_said(fields, plane, &picture)
}
