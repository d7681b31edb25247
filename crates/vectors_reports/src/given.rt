//! The readings that frames give: number by number, or by a seed and a rule.
ghost use Rattle.std.specs.Prelude.{◌≡◌, length};

use crate::calls;
use listing::ROW_SIZE;
use refusals::Refusal;
use vectors::floats::{Samples, float_of};
use vectors::{Fields, next_number};

/// How a frame gives a reading.
#[derive(Clone, Copy, Debug, PartialEq, Eq)]
pub enum Form {
    /// Number by number.
    Each,
    /// By a seed.
    Seed,
}

/// A reading that a frame gives.
#[derive(Clone, Copy, Debug)]
pub enum Given<'a> {
    /// The numbers of the rows in eight bytes each, and the patterns of the corner numbers in four.
    Each {
        rows: &'a [u8],
        corners: &'a [u8],
    },
    /// By the rule from a seed, but for the number at one place of the rows, and the pattern at one of the corners.
    Seed {
        seed: u64,
        row: (usize, u64),
        corner: (usize, u32),
    },
}

/// The refusals of a reading.
const REFUSALS: [Refusal; 7] = [
    Refusal::Corner,
    Refusal::CornerOutside,
    Refusal::SampleOutside,
    Refusal::Flat,
    Refusal::Unsure,
    Refusal::Unread,
    Refusal::Repeated,
];

fn drawn(seed: u64, k: usize) -> u64 {
    next_number(next_number(next_number(seed.wrapping_add(k as u64))))
}

/// Row q: about one in eight is refused, and about every second has no differing modules.
fn row_by_rule(seed: u64, q: usize) -> [u64; ROW_SIZE] {
    let x = drawn(seed, q);
    if x % 8 == 0 {
        let refusal = REFUSALS[(x / 8 % 7) as usize];
        return [u64::from(refusal.number()), 0, 0, 0];
    }
    let id = (q as u64 % 1024 * 389).wrapping_add(seed) % 1024;
    let turn = x / 8 % 4;
    let differing = if x / 32 % 2 == 0 { 0 } else { x / 64 % 64 };
    [0, id, turn, differing]
}

/// The pattern of corner number k: zero in a refused row, else any that refusal 8 lets through.
fn pattern_by_rule(seed: u64, k: usize) -> u32 {
    if drawn(seed, k / 8) % 8 == 0 {
        return 0;
    }
    let x = drawn(seed ^ 0xffff_ffff_ffff_ffff, k);
    ((x >> 32) % 0x4680_0000 + x % 2 * 0x8000_0000) as u32
}

/// Numbers by the rule.
fn draw_rows(seed: u64, rows: &mut [u64]) {
    let (rows, _) = rows.as_chunks_mut::<ROW_SIZE>();
    for (q, row) in rows.iter_mut().enumerate() {
        *row = row_by_rule(seed, q);
    }
}

/// Corner numbers by the rule.
fn draw_corners(seed: u64, corners: &mut [f32]) {
    for (k, x) in corners.iter_mut().enumerate() {
        *x = float_of(pattern_by_rule(seed, k));
    }
}

impl<'a> Given<'a> {
    /// What stands in the last fields of a frame, with `a` numbers of the rows.
    pub fn new(form: Form, mut fields: Fields<'a>, a: usize) -> Self {
        match form {
            Form::Each => Given::Each {
                rows: fields.take(a.saturating_mul(8)),
                corners: fields.rest(),
            },
            Form::Seed => Given::Seed {
                seed: fields.u64(),
                row: (usize::from(fields.u16()), fields.u64()),
                corner: (usize::from(fields.u16()), fields.u32()),
            },
        }
    }

    /// The rows, at the front.
    pub fn rows(self) -> [u64; 4104]
        ensures { 4104 ≡ length result }
    {
        let mut rows = calls::before::<u64, 4104>();
        match self {
            Given::Each { rows: s, .. } => {
                let mut fields = Fields::new(s);
                for number in &mut rows {
                    *number = fields.u64();
                }
            }
            Given::Seed {
                seed,
                row: (place, number),
                ..
            } => {
                draw_rows(seed, &mut rows);
                if let Some(one) = rows.get_mut(place) {
                    *one = number;
                }
            }
        }
        rows
    }

    /// The corners of the rows.
    pub fn corners(self) -> [f32; 8208]
        ensures { 8208 ≡ length result }
    {
        let mut corners = calls::before::<f32, 8208>();
        match self {
            Given::Each { corners: s, .. } => Samples::Each(s).fill(&mut corners),
            Given::Seed {
                seed,
                corner: (place, pattern),
                ..
            } => {
                draw_corners(seed, &mut corners);
                if let Some(one) = corners.get_mut(place) {
                    *one = float_of(pattern);
                }
            }
        }
        corners
    }
}
