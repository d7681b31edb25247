//! Frames of the clusters and the centres.
use crate::planes;
use muosleap_picture::saddles::{cluster_center, init_saddle_clusters};
use refusals::Shape;
use vectors::Fields;
use vectors::answers::number_of;
use vectors::digest::Digest;
use vectors::floats::{Samples, are_alike, pattern_of};
use vectors::frames::UnknownKind;

#[derive(Clone, Copy, Debug, PartialEq, Eq)]
enum Kind {
    /// All that a call leaves: the total, the rows, and the plane.
    Plane,
    /// A digest of all that calls leave, one for each pattern of a small plane.
    Patterns,
    Center,
    /// The number alone that a call answers.
    Number,
}

impl TryFrom<u8> for Kind {
    type Error = UnknownKind;

    fn try_from(number: u8) -> Result<Self, UnknownKind> {
        match number {
            1 => Ok(Kind::Plane),
            2 => Ok(Kind::Patterns),
            3 => Ok(Kind::Center),
            4 => Ok(Kind::Number),
            _ => Err(UnknownKind(number)),
        }
    }
}

/// What rows hold before a call.
const UNTOUCHED: u64 = 7;

/// Whether rows hold the numbers of two bytes in `s`, as many whole rows as fit, and the others what they held.
fn are_rows_alike(s: &[u8], rows: &[u64]) -> bool {
    let (said, _) = s.as_chunks::<6>();
    let (whole, left) = rows.split_at(rows.len() / 3 * 3);
    let (filled, others) = whole.split_at(3 * said.len().min(rows.len() / 3));
    let mut fields = Fields::new(s);
    filled.iter().all(|row| *row == u64::from(fields.u16()))
        && others.iter().chain(left).all(|row| *row == UNTOUCHED)
}

fn is_plane_alike(mut fields: Fields) -> bool {
    let mut plane = [0.0f32; planes::MOST_SAMPLES];
    let mut worklist = [0u32; 12289];
    let mut rows = [UNTOUCHED; 512];
    let shape = planes::small_shape(&mut fields);
    let n = planes::count(shape);
    let threshold = fields.f32();
    let rows = &mut rows[..usize::from(fields.u16()).min(512)];
    let total = usize::from(fields.u16());
    let said = fields.take(6 * total);
    let plane = &mut plane[..n];
    Samples::Each(fields.take(4 * n)).fill(plane);
    let got = init_saddle_clusters(plane, shape, threshold, &mut worklist[..3 * n + 1], rows);
    got == Ok(total) && are_rows_alike(said, rows) && are_alike(fields.rest(), plane)
}

fn is_number_alike(mut fields: Fields) -> bool {
    let mut plane = [0.0f32; 4100];
    let mut worklist = [0u32; 12300];
    let mut rows = [UNTOUCHED; 3];
    let shape = planes::wide_shape(&mut fields);
    let said = fields.u8();
    let plane = &mut plane[..(fields.u32() as usize).min(4100)];
    Samples::but_one(&mut fields).fill(plane);
    let threshold = fields.f32();
    let worklist = &mut worklist[..(fields.u32() as usize).min(12300)];
    number_of(init_saddle_clusters(plane, shape, threshold, worklist, &mut rows)) == said
}

/// Adds the total, the rows and the plane after a call for the plane of one pattern.
fn add_pattern(digest: &mut Digest, pattern: u32, shape: Shape, plane: &mut [f32]) {
    let mut worklist = [0u32; 49];
    let mut rows = [0u64; 48];
    Samples::Bits(u64::from(pattern)).fill(plane);
    let total = init_saddle_clusters(plane, shape, -0.5, &mut worklist, &mut rows).unwrap_or(0);
    digest.add(&total.to_le_bytes()[..2]);
    for row in &rows[..3 * total.min(16)] {
        digest.add(&row.to_le_bytes()[..2]);
    }
    digest.add_floats(plane);
}

/// The digest of all patterns.
fn is_digest_alike(mut fields: Fields) -> bool {
    let mut plane = [0.0f32; 16];
    let mut digest = Digest::new();
    let shape = planes::small_shape(&mut fields);
    let n = planes::count(shape).min(16);
    for pattern in 0..1 << n {
        add_pattern(&mut digest, pattern, shape, &mut plane[..n]);
    }
    digest.value() == fields.u64()
}

fn is_center_alike(mut fields: Fields) -> bool {
    let answer = cluster_center(fields.u64(), fields.u64(), fields.u64());
    let said = fields.u8();
    match answer {
        Ok(p) => said == 0 && pattern_of(p.x) == fields.u32() && pattern_of(p.y) == fields.u32(),
        Err(refusal) => refusal.number() == said,
    }
}

/// Whether the entries answer what a frame says. It is not inlined, so that the arrays of its kinds lie on the stack only while it runs.
#[inline(never)]
pub fn is_alike(frame: &[u8]) -> Result<bool, UnknownKind> {
    let mut fields = Fields::new(frame);
    Ok(match Kind::try_from(fields.u8())? {
        Kind::Plane => is_plane_alike(fields),
        Kind::Patterns => is_digest_alike(fields),
        Kind::Center => is_center_alike(fields),
        Kind::Number => is_number_alike(fields),
    })
}
