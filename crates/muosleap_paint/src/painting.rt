//! Tags painted into an 8-bit plane.
ghost use Rattle.std.specs.Prelude.{◌≡◌, false, length};
ghost use Rattle.refusals.specs.Numbers.{outcome};
ghost use Rattle.refusals.specs.Pixels.{bad_frame};
ghost use Rattle.muosleap_paint.specs.PaintTag.{Painting, paint_tag, paint_tag_in};

use painter::{Canvas, Print, Square, Tag};
use points::Quad;
use refusals::{Frame, Refusal};

/// What comes after the plane and the square: refusal 14, then the painting.
#[tactic(auto, unfolding(crate::specs::PaintTag::paint_tag))]
fn paint_square(
    plane: &mut [u8],
    frame: Frame,
    square: Square,
    word: u64,
    print: Print,
) -> Result<Quad, Refusal>
    requires { bad_frame (length plane.old) frame ≡ false }
    ensures { ◌≡◌ {A = Painting} (record { answer = outcome result; plane = plane.new }) (paint_tag plane.old frame square.edge square.border word print) }
{
    let tag = Tag::new(frame, square, word, print)?;
    let mut canvas = Canvas {
        bytes: plane,
        frame,
    };
    canvas.fill(print.light);
    canvas.draw_tag(tag);
    Ok(tag.quad())
}

/// The picture filled with light and one tag drawn into it, filler left as it is; the answer is the tag's quad, from the print's
/// first corner clockwise. Refusal 1 for the plane, 6 for the edge and the border, 14 for the word and the print. A refused call
/// leaves the plane as it was.
#[tactic(auto, unfolding(crate::specs::PaintTag::paint_tag))]
pub fn paint_tag(
    plane: &mut [u8],
    frame: Frame,
    edge: u8,
    border: u8,
    word: u64,
    print: Print,
) -> Result<Quad, Refusal>
    ensures { ◌≡◌ {A = Painting} (record { answer = outcome result; plane = plane.new }) (paint_tag plane.old frame edge border word print) }
{
    painter::check_plane(plane.len(), frame)?;
    let square = Square::new(edge, border)?;
    paint_square(plane, frame, square, word, print)
}

/// The same with the edge and the border of a family. Refusal 6 for a family number that there is none of.
#[tactic(auto, unfolding(crate::specs::PaintTag::paint_tag, crate::specs::PaintTag::paint_tag_in))]
pub fn paint_tag_in(
    plane: &mut [u8],
    frame: Frame,
    family: u8,
    word: u64,
    print: Print,
) -> Result<Quad, Refusal>
    ensures { ◌≡◌ {A = Painting} (record { answer = outcome result; plane = plane.new }) (paint_tag_in plane.old frame family word print) }
{
    painter::check_plane(plane.len(), frame)?;
    let known = tag_families::table(family)?.family;
    let square = Square::new(known.edge, known.border)?;
    paint_square(plane, frame, square, word, print)
}
