//! Calls of both entries, and what is seen of them: the answer and every number of the outputs.
ghost use Rattle.std.specs.Prelude.{◌≡◌, length};

use listing::ROW_SIZE;
use muosleap_report::reports::{read_report, write_report};
use points::QUAD_SIZE;
use refusals::Refusal;
use vectors::digest::Digest;
use vectors::floats::pattern_of;
use vectors::{Fields, product};

/// A number of an output.
pub trait Number: Copy {
    /// What an output holds before a call.
    const BEFORE: Self;

    /// Whether it is that, bit for bit.
    fn is_before(&self) -> bool;

    /// Takes it into a digest.
    fn add_to(&self, digest: &mut Digest);
}

impl Number for u8 {
    const BEFORE: u8 = 165;

    fn is_before(&self) -> bool {
        *self == Self::BEFORE
    }

    fn add_to(&self, digest: &mut Digest) {
        digest.add_u8(*self);
    }
}

impl Number for u64 {
    const BEFORE: u64 = 0xa5a5_a5a5_a5a5_a5a5;

    fn is_before(&self) -> bool {
        *self == Self::BEFORE
    }

    fn add_to(&self, digest: &mut Digest) {
        digest.add(&self.to_le_bytes());
    }
}

impl Number for f32 {
    const BEFORE: f32 = 165.0;

    fn is_before(&self) -> bool {
        pattern_of(*self) == pattern_of(Self::BEFORE)
    }

    fn add_to(&self, digest: &mut Digest) {
        digest.add_floats(&[*self]);
    }
}

/// An output before a call. Every report has room in 65,536 bytes, and 1,026 rows in 4,104 numbers and 8,208 corner numbers.
pub fn before<T: Number, const N: usize>() -> [T; N]
    ensures { N ≡ length result }
{
    [T::BEFORE; N]
}

/// How many bytes were written or rows read, and their digest.
#[derive(Clone, Copy, Debug, Default, PartialEq, Eq)]
pub struct Output {
    pub count: usize,
    pub digest: u64,
}

/// The output of a call, or the number of its refusal; and whether all else that was lent is as before.
#[derive(Clone, Copy, Debug, PartialEq, Eq)]
pub struct Outcome {
    pub output: Result<Output, u8>,
    pub kept: bool,
}

impl Outcome {
    /// What a frame says of a call: 0 or the refusal, the count and the digest. Both are 0 where the call is refused: with others behind
    /// a refusal a frame says what no call answers.
    pub fn read(fields: &mut Fields) -> Option<Self> {
        let number = fields.u8();
        let output = Output {
            count: usize::from(fields.u16()),
            digest: fields.u64(),
        };
        let output = match number {
            0 => Ok(output),
            _ if output == Output::default() => Err(number),
            _ => return None,
        };
        Some(Outcome { output, kept: true })
    }

    /// What a call answered, and what was seen of its outputs.
    fn new(answer: Result<usize, Refusal>, seen: Seen) -> Self {
        let digest = seen.digest.value();
        Outcome {
            output: match answer {
                Ok(count) => Ok(Output { count, digest }),
                Err(refusal) => Err(refusal.number()),
            },
            kept: seen.kept,
        }
    }
}

/// The digest of what was given in the outputs, and whether all else in them is as before.
#[derive(Clone, Copy, Debug, PartialEq, Eq)]
struct Seen {
    digest: Digest,
    kept: bool,
}

impl Seen {
    fn new() -> Self {
        Seen {
            digest: Digest::new(),
            kept: true,
        }
    }

    /// With an output, of which the first `count` numbers were given.
    fn with<T: Number>(mut self, count: usize, output: &[T]) -> Self {
        let (given, left) = output.split_at(count.min(output.len()));
        for number in given {
            number.add_to(&mut self.digest);
        }
        self.kept &= left.iter().all(|number| number.is_before());
        self
    }

    /// With `count` rows that were given, and their corners.
    fn with_rows(self, count: usize, rows: &[u64], corners: &[f32]) -> Self {
        self.with(count.saturating_mul(ROW_SIZE), rows)
            .with(count.saturating_mul(QUAD_SIZE), corners)
    }
}

fn write(rows: &[u64], corners: &[f32], report: &mut [u8]) -> Outcome {
    let answer = write_report(rows, corners, report);
    Outcome::new(answer, Seen::new().with(answer.unwrap_or(0), report))
}

fn read(report: &[u8], rows: &mut [u64], corners: &mut [f32]) -> Outcome {
    let answer = read_report(report, rows, corners);
    Outcome::new(
        answer,
        Seen::new().with_rows(answer.unwrap_or(0), rows, corners),
    )
}

/// Whether a report is read as these rows and corners, bit for bit, with room to spare.
fn reads_as(report: &[u8], rows: &[u64], corners: &[f32]) -> bool {
    let mut own_rows = before::<u64, 4104>();
    let mut own_corners = before::<f32, 8208>();
    let count = rows.len() / ROW_SIZE;
    let seen = Seen::new().with_rows(count, rows, corners);
    read(report, &mut own_rows, &mut own_corners) == Outcome::new(Ok(count), seen)
}

/// Writes a reading, and reads back what is accepted.
pub fn write_and_back(rows: &[u64], corners: &[f32], report: &mut [u8]) -> Outcome {
    let mut got = write(rows, corners, report);
    if let Ok(Output { count, .. }) = got.output {
        let given = &report[..count.min(report.len())];
        got.kept &= reads_as(given, rows, corners);
    }
    got
}

/// Whether the first `count` rows and their corners are written as this report, into `own`.
fn writes_as(rows: &[u64], corners: &[f32], count: usize, report: &[u8], own: &mut [u8]) -> bool {
    let rows = &rows[..product(count, ROW_SIZE, rows.len())];
    let corners = &corners[..product(count, QUAD_SIZE, corners.len())];
    let count = report.len();
    write(rows, corners, own) == Outcome::new(Ok(count), Seen::new().with(count, report))
}

/// Reads a report, and writes back what is accepted.
pub fn read_and_back(
    report: &[u8],
    rows: &mut [u64],
    corners: &mut [f32],
    own: &mut [u8],
) -> Outcome {
    let mut got = read(report, rows, corners);
    if let Ok(Output { count, .. }) = got.output {
        got.kept &= writes_as(rows, corners, count, report, own);
    }
    got
}
