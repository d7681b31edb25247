//! The answer of a reader of quads, from whatever says it: a reading, a row of a list, or the bytes of a frame. Floats stand in it by
//! their patterns, so that two answers are equal where they are bit for bit, a NaN like every other.
ghost use Rattle.std.specs.Prelude.{◌≡◌, drop, IfOk, IfErr};
ghost use Rattle.refusals.specs.Numbers;

use crate::fields::Fields;
use crate::floats::{Samples, pattern_of};
use listing::ROW_SIZE;
use points::{QUAD_SIZE, Quad};
use reader::Reading;
use refusals::Refusal;

/// The number of a call's answer, 0 where it is accepted.
pub fn number_of<T: Drop>(answer: Result<T, Refusal>) -> u8
    ensures accepted { IfOk answer (λ _. result ≡ 0) }
    ensures refused { IfErr answer (λ refusal. result ≡ Numbers.number_of refusal) }
{
    match answer {
        Ok(_) => 0,
        Err(refusal) => refusal.number(),
    }
}

/// The patterns of a quad's eight numbers.
#[derive(Clone, Copy, Debug, PartialEq, Eq)]
pub struct Corners([u32; QUAD_SIZE]);

impl Corners {
    /// Eight times the same number.
    pub fn all(x: f32) -> Self {
        Corners([pattern_of(x); QUAD_SIZE])
    }
}

impl From<[f32; QUAD_SIZE]> for Corners {
    fn from(numbers: [f32; QUAD_SIZE]) -> Self {
        Corners(numbers.map(|x| pattern_of(x)))
    }
}

impl From<Quad> for Corners {
    fn from(quad: Quad) -> Self {
        let mut numbers = [0.0; QUAD_SIZE];
        points::put_quad(&mut numbers, 0, quad);
        Corners::from(numbers)
    }
}

/// A refusal number, 0 where there is none, id, turn, differing modules and corners.
#[derive(Clone, Copy, Debug, PartialEq, Eq)]
pub struct Answer {
    pub refusal: u64,
    pub id: u64,
    pub turn: u64,
    pub differing: u64,
    pub corners: Corners,
}

impl Answer {
    /// A tag.
    pub fn found(id: usize, turn: u8, differing: u8, corners: Corners) -> Self
        ensures tag { result.refusal ≡ 0 }
        ensures code { result.id ≡ id }
        ensures start { (result.turn ≡ turn) × (result.differing ≡ differing) }
    {
        Answer {
            refusal: 0,
            id: id as u64,
            turn: u64::from(turn),
            differing: u64::from(differing),
            corners,
        }
    }

    /// A refusal by its number.
    pub fn refused(number: u8) -> Self
        ensures { (result.refusal ≡ number) × (result.id ≡ 0) }
    {
        Answer {
            refusal: u64::from(number),
            id: 0,
            turn: 0,
            differing: 0,
            corners: Corners::all(0.0),
        }
    }

    /// Row q of a list, if there is one.
    pub fn of_row(rows: &[u64], corners: &[f32], q: usize) -> Option<Self> {
        let (rows, _) = rows.as_chunks::<ROW_SIZE>();
        let (quads, _) = corners.as_chunks::<QUAD_SIZE>();
        let [refusal, id, turn, differing] = *rows.get(q)?;
        let numbers = *quads.get(q)?;
        Some(Answer {
            refusal,
            id,
            turn,
            differing,
            corners: Corners::from(numbers),
        })
    }
}

impl From<Reading> for Answer {
    fn from(reading: Reading) -> Self {
        match reading {
            Reading::Tag {
                id,
                turn,
                differing,
                corners,
            } => Answer::found(id, turn, differing, Corners::from(corners)),
            Reading::Refused(number) => Answer::refused(number),
        }
    }
}

impl Fields<'_> {
    /// A quad, in eight floats.
    pub fn quad(&mut self) -> Quad
        ensures { self.new.left.now ≡ drop 32 self.old.left.now }
    {
        let mut numbers = [0.0; QUAD_SIZE];
        Samples::Each(self.take(4 * QUAD_SIZE)).fill(&mut numbers);
        points::quad_at(&numbers, 0)
    }

    /// An answer, in 37 bytes.
    pub fn answer(&mut self) -> Answer
        ensures { self.new.left.now ≡ drop 37 self.old.left.now }
    {
        Answer {
            refusal: u64::from(self.u8()),
            id: u64::from(self.u16()),
            turn: u64::from(self.u8()),
            differing: u64::from(self.u8()),
            corners: Corners::from(self.quad()),
        }
    }
}
