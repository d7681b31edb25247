//! Frames of a sheet, with a lent table or by the number of a family.
use crate::fields::TagFields;
use crate::padded::Plane;
use crate::words::codes_in;
use grid::Grid;
use muosleap_paint::sheet::{paint_sheet, paint_sheet_in};
use painter::Print;
use refusals::Refusal;
use tables::Family;
use vectors::Fields;
use vectors::answers::number_of;
use vectors::digest::Digest;

/// Whose codes the tags of a sheet have.
#[derive(Clone, Copy, Debug, PartialEq, Eq)]
pub enum Codes {
    /// Those of a table that is lent.
    Lent,
    /// Those of the family of a number.
    OfFamily,
}

/// What is painted: a table without its codes, or the number of a family in place of the edge, the grid, and its tags' print.
#[derive(Clone, Copy)]
struct Sheet {
    codes: Codes,
    family: Family,
    grid: Grid,
    print: Print,
}

impl Sheet {
    /// Paints it, with the codes in `s` where they are lent.
    fn paint(&self, s: &[u8], plane: &mut Plane, quads: &mut [f32]) -> Result<(), Refusal> {
        let frame = plane.frame;
        let Sheet {
            codes,
            family,
            grid,
            print,
        } = *self;
        let mut room = [0u64; 1025];
        match codes {
            Codes::Lent => {
                let codes = codes_in(s, &mut room);
                paint_sheet(plane.bytes, frame, family, codes, grid, print, quads)
            }
            Codes::OfFamily => paint_sheet_in(plane.bytes, frame, family.edge, grid, print, quads),
        }
    }
}

/// A sheet on a plane that holds noise: the answer, the digest of the pixels afterwards, every other byte, and the digest of the whole
/// output, which holds 7 before.
pub fn is_sheet_alike(codes: Codes, mut fields: Fields, plane: &mut Plane) -> bool {
    let sheet = Sheet {
        codes,
        family: fields.family(),
        grid: fields.grid(),
        print: fields.print(),
    };
    let mut quads = [7.0f32; 8200];
    let quads = &mut quads[..usize::from(fields.u16()).min(8200)];
    let said = fields.u8();
    let pixels = fields.u64();
    let output = fields.u64();
    let answer = sheet.paint(fields.rest(), plane, quads);
    let seen = plane.seen(said);
    let mut digest = Digest::new();
    digest.add_floats(quads);
    number_of(answer) == said && seen.digest == pixels && seen.is_kept && digest.value() == output
}
