//! One tag, painted and read from its four starts.
use crate::tried::Tried;
use muosleap::detector::{try_decode_quad, try_decode_quad_in};
use muosleap::quads::{try_decode_quads, try_decode_quads_in};
use muosleap_paint::painting::{paint_tag, paint_tag_in};
use painter::Print;
use points::{Quad, answer_corners, rotate_left};
use refusals::{Frame, Refusal, packed_frame};
use tables::Family;
use vectors::answers::{Answer, Corners};
use vectors::{Tally, product};

/// Modules that are misprinted: their bits, and how many they are.
#[derive(Clone, Copy, Debug, PartialEq, Eq)]
pub struct Misprint {
    pub bits: u64,
    pub modules: u8,
}

impl Misprint {
    /// No module.
    pub const NONE: Misprint = Misprint {
        bits: 0,
        modules: 0,
    };

    /// Misprint p: of one module, from 36 on of two, seven places apart, and from 72 on of the eight of a row.
    pub fn nth(p: usize) -> Self {
        match p {
            0..=35 => Misprint {
                bits: bit(p),
                modules: 1,
            },
            36..=71 => Misprint {
                bits: bit(p - 36) ^ bit((p - 29) % 36),
                modules: 2,
            },
            _ => Misprint {
                bits: 255u64 << ((p % 8 * 8) as u64),
                modules: 8,
            },
        }
    }
}

fn bit(place: usize) -> u64 {
    1u64 << ((place % 64) as u64)
}

/// What is painted: the code of a table by its position, the word for it, how many of the code's modules are misprinted in it, the
/// print, and the plane's frame.
#[derive(Clone, Copy)]
pub struct Tag<'a> {
    pub table: &'a Tried,
    pub id: usize,
    pub word: u64,
    pub misprinted: u8,
    pub print: Print,
    pub frame: Frame,
}

impl<'a> Tag<'a> {
    /// The tag of a code, at a turn, with some modules misprinted, in the smallest plane that takes it. Shades are 50 apart.
    pub fn new(table: &'a Tried, id: usize, cell: usize, turn: usize, misprint: Misprint) -> Self {
        let wide = product(table.side(), cell, 640) + 1;
        Tag {
            table,
            id,
            word: table.codes.get(id).copied().unwrap_or(0) ^ misprint.bits,
            misprinted: misprint.modules,
            print: Print {
                x: 0,
                y: 0,
                cell,
                turn: (turn % 4) as u8,
                light: 200,
                dark: 150,
            },
            frame: packed_frame(wide, wide),
        }
    }

    /// The tag at another place of another plane.
    pub fn placed(self, x: usize, y: usize, frame: Frame) -> Self {
        Tag {
            print: Print { x, y, ..self.print },
            frame,
            ..self
        }
    }

    /// The first bytes of `plane`, as many as the tag's own plane has.
    pub fn own_plane<'p>(&self, plane: &'p mut [u8]) -> &'p mut [u8] {
        let count = product(self.frame.width, self.frame.height, plane.len());
        &mut plane[..count]
    }

    /// Paints it, a family's tag by its number. The painter's quad, or why it refuses.
    pub fn paint(&self, plane: &mut [u8]) -> Result<Quad, Refusal> {
        let Family { edge, border, .. } = self.table.family;
        match self.table.number {
            Some(number) => paint_tag_in(plane, self.frame, number, self.word, self.print),
            None => paint_tag(plane, self.frame, edge, border, self.word, self.print),
        }
    }

    /// What a start of the painter's quad is to be read as: with as many differing modules as were misprinted.
    pub fn expected(&self, quad: Quad, start: u8) -> Answer {
        Answer::found(
            self.id,
            (4 - start % 4) % 4,
            self.misprinted,
            Corners::from(answer_corners(quad, 0)),
        )
    }

    /// Reads a list, with the table lent or by the family's number: how many rows it has, or why it is refused.
    pub fn read_list(
        &self,
        plane: &[u8],
        quads: &[f32],
        rows: &mut [u64],
        corners: &mut [f32],
    ) -> Result<usize, Refusal> {
        let Tried { family, codes, .. } = *self.table;
        match self.table.number {
            Some(number) => try_decode_quads_in(plane, self.frame, number, quads, rows, corners),
            None => try_decode_quads(plane, self.frame, family, codes, quads, rows, corners),
        }
    }

    /// Paints it, and counts its four starts.
    pub fn paint_and_count(&self, plane: &mut [u8], tally: &mut Tally) {
        let plane = self.own_plane(plane);
        match self.paint(plane) {
            Ok(quad) => Shown {
                plane,
                tag: *self,
                quad,
            }
            .count_starts(tally),
            Err(_) => tally.add(false, self.id),
        }
    }
}

/// A painted tag: the plane, what is painted on it, and the painter's quad.
#[derive(Clone, Copy)]
pub struct Shown<'a> {
    pub plane: &'a [u8],
    pub tag: Tag<'a>,
    pub quad: Quad,
}

impl Shown<'_> {
    /// Whether a start is read as its own tag: with the table lent, and for a family by its number too.
    fn is_read(&self, start: u8) -> bool {
        let Tag { table, frame, .. } = self.tag;
        let turned = rotate_left(self.quad, start);
        let expected = self.tag.expected(self.quad, start);
        let lent = try_decode_quad(self.plane, frame, table.family, table.codes, turned);
        let is_known = table.number.is_none_or(|number| {
            Answer::from(try_decode_quad_in(self.plane, frame, number, turned)) == expected
        });
        is_known && Answer::from(lent) == expected
    }

    /// Counts the four starts.
    pub fn count_starts(&self, tally: &mut Tally) {
        for start in 0..4 {
            tally.add(self.is_read(start), self.tag.id);
        }
    }
}
