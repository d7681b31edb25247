//! Planes that are painted.
ghost use Rattle.std.specs.Prelude.{◌≡◌, true, false, ◌+◌, ◌≤◌, length, get_or, IfOk, IfErr};
ghost use Rattle.refusals.specs.Pixels.{bad_frame};
ghost use Rattle.painter.specs.Picture.{repainted, block_pixel, filled};
ghost use Rattle.painter.specs.Tag.{size_of, drawn};
ghost use Rattle.painter.specs.Printable.{bad_place};

use crate::Tag;
use refusals::{Frame, Refusal};

/// A lent plane that refusal 1 lets through. Filler stays as it is in all that is painted. No function makes one that may be refused: a
/// loan that was handed over for a value does not come back with a refusal.
#[derive(Drop)]
pub struct Canvas<'a> {
    pub bytes: &'a mut [u8],
    pub frame: Frame,
    ghost framed: { bad_frame (length bytes.now) frame ≡ false },
}

/// Refusal 1 for a plane of `len` bytes. A canvas is made of what passes.
pub fn check_plane(len: usize, frame: Frame) -> Result<(), Refusal>
    ensures ok { IfOk result (λ done. bad_frame len frame ≡ false) }
    ensures refused { IfErr result (λ e. (e ≡ Refusal.Plane) × (bad_frame len frame ≡ true)) }
{
    if refusals::bad_frame(len, frame) {
        return Err(Refusal::Plane);
    }
    Ok(())
}

impl<'a> Canvas<'a> {
    /// Makes every pixel light.
    pub fn fill(&mut self, light: u8)
        ensures filled { self.new.bytes.now ≡ filled self.old.frame light self.old.bytes.now }
        ensures same_frame { self.new.frame ≡ self.old.frame }
        ensures same_loan { self.new.bytes.ghost_name ≡ self.old.bytes.ghost_name }
    {
        let frame = self.frame;
        // Rows are cut out by their number: after a loop over `chunks_exact_mut` a proof knows no more than lengths.
        for row in 0..frame.height {
            let start = refusals::place_of(frame, 0, row);
            self.bytes[start..start + frame.width].fill(light);
        }
    }

    /// A block of pixels, as wide as the line and each of its rows the line's bytes.
    fn copy_block(&mut self, x: usize, y: usize, high: usize, line: &[u8])
        requires across { x + length line.now ≤ self.old.frame.width }
        requires down { y + high ≤ self.old.frame.height }
        ensures copied { self.new.bytes.now ≡ repainted self.old.frame (block_pixel x y (length line.now) high (λ i. get_or line.now i 0)) self.old.bytes.now }
        ensures same_frame { self.new.frame ≡ self.old.frame }
        ensures same_loan { self.new.bytes.ghost_name ≡ self.old.bytes.ghost_name }
    {
        let frame = self.frame;
        for row in 0..high {
            let start = refusals::place_of(frame, x, y + row);
            self.bytes[start..start + line.len()].copy_from_slice(line);
        }
    }

    /// The tag, one row of cells after another: its line of pixels is worked out once, and copied to each row of pixels.
    fn draw_rows(&mut self, tag: Tag, line: &mut [u8])
        requires placed { bad_place self.old.frame tag.square.edge tag.square.border tag.print ≡ false }
        requires wide { length line.old ≡ size_of tag.square.edge tag.square.border tag.print }
        ensures drawn { self.new.bytes.now ≡ drawn self.old.frame tag.square.edge tag.square.border tag.word tag.print self.old.bytes.now }
        ensures same_frame { self.new.frame ≡ self.old.frame }
        ensures same_loan { self.new.bytes.ghost_name ≡ self.old.bytes.ghost_name }
    {
        let print = tag.print;
        for row in 0..tag.square.side() {
            tag.write_line(line, row);
            self.copy_block(print.x, print.y + row * print.cell, print.cell, line);
        }
    }

    /// Draws the tag, which ends at least one pixel before the right and lower edges. All other pixels stay as they are.
    pub fn draw_tag(&mut self, tag: Tag)
        requires placed { bad_place self.old.frame tag.square.edge tag.square.border tag.print ≡ false }
        ensures drawn { self.new.bytes.now ≡ drawn self.old.frame tag.square.edge tag.square.border tag.word tag.print self.old.bytes.now }
        ensures same_frame { self.new.frame ≡ self.old.frame }
        ensures same_loan { self.new.bytes.ghost_name ≡ self.old.bytes.ghost_name }
    {
        // A line of the tag has at most 16 cells of 64 pixels.
        let mut line = [0u8; 1024];
        self.draw_rows(tag, &mut line[..tag.size()]);
    }
}
