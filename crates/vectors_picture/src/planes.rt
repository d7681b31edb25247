//! Frames of the blur, the response and the threshold.
ghost use Rattle.std.specs.Prelude.{◌≤◌};

use muosleap_picture::image_util::{gaussian_blur_f32, hessian_response, response_threshold};
use refusals::Shape;
use vectors::answers::number_of;
use vectors::digest::Digest;
use vectors::floats::{Samples, are_alike, pattern_of};
use vectors::frames::UnknownKind;
use vectors::{Fields, product};

/// How a frame gives a picture, and what it says of the planes that the call makes.
#[derive(Clone, Copy, Debug, PartialEq, Eq)]
enum Form {
    /// Sample by sample, and behind them the planes.
    Whole,
    /// By a seed, and behind it the digest of the planes.
    Drawn,
}

#[derive(Clone, Copy, Debug, PartialEq, Eq)]
enum Kind {
    Blur(Form),
    Response(Form),
    Threshold,
    /// A call of which the frame says the number that it answers.
    Number,
}

impl TryFrom<u8> for Kind {
    type Error = UnknownKind;

    fn try_from(number: u8) -> Result<Self, UnknownKind> {
        match number {
            1 => Ok(Kind::Blur(Form::Whole)),
            2 => Ok(Kind::Blur(Form::Drawn)),
            3 => Ok(Kind::Response(Form::Whole)),
            4 => Ok(Kind::Response(Form::Drawn)),
            5 => Ok(Kind::Threshold),
            6 => Ok(Kind::Number),
            _ => Err(UnknownKind(number)),
        }
    }
}

/// The sides, in two bytes.
pub fn small_shape(fields: &mut Fields) -> Shape {
    Shape {
        width: usize::from(fields.u8()),
        height: usize::from(fields.u8()),
    }
}

/// The same in numbers of eight bytes.
pub fn wide_shape(fields: &mut Fields) -> Shape {
    Shape {
        width: fields.u64() as usize,
        height: fields.u64() as usize,
    }
}

/// The most samples of a plane whose sides are given in two bytes.
pub const MOST_SAMPLES: usize = 4096;

/// The number of samples.
pub fn count(shape: Shape) -> usize
    ensures { result ≤ MOST_SAMPLES }
{
    product(shape.width, shape.height, MOST_SAMPLES)
}

/// An entry on planes.
#[derive(Clone, Copy, Debug, PartialEq, Eq)]
enum Entry {
    Blur,
    Response,
    Threshold,
}

impl From<u8> for Entry {
    /// Each number has an entry: all but 0 and 1 are the threshold's.
    fn from(number: u8) -> Self {
        match number {
            0 => Entry::Blur,
            1 => Entry::Response,
            _ => Entry::Threshold,
        }
    }
}

impl Entry {
    /// The number that it answers.
    fn call(
        self,
        img: &[f32],
        shape: Shape,
        weights: &[f32],
        temp: &mut [f32],
        out: &mut [f32],
    ) -> u8 {
        match self {
            Entry::Blur => number_of(gaussian_blur_f32(img, shape, weights, temp, out)),
            Entry::Response => number_of(hessian_response(img, shape, out)),
            Entry::Threshold => number_of(response_threshold(img, shape)),
        }
    }
}

/// What a frame says that a call leaves.
#[derive(Clone, Copy, Debug)]
enum Says<'a> {
    /// The plane between and the output, in four bytes a sample.
    Planes(&'a [u8]),
    /// The digest of both.
    Digest(u64),
    /// The number alone that it answers.
    Number(u8),
}

impl Says<'_> {
    /// Whether a call left this.
    fn is_left(self, number: u8, temp: &[f32], out: &[f32]) -> bool {
        match self {
            Says::Planes(s) => {
                let mut fields = Fields::new(s);
                let between = fields.take(temp.len().saturating_mul(4));
                number == 0 && are_alike(between, temp) && are_alike(fields.rest(), out)
            }
            Says::Digest(said) => {
                let mut digest = Digest::new();
                digest.add_floats(temp);
                digest.add_floats(out);
                number == 0 && digest.value() == said
            }
            Says::Number(said) => number == said,
        }
    }
}

impl Form {
    /// The samples of a picture, as many as `n`.
    fn samples<'a>(self, fields: &mut Fields<'a>, n: usize) -> Samples<'a> {
        match self {
            Form::Whole => Samples::Each(fields.take(n.saturating_mul(4))),
            Form::Drawn => Samples::Drawn(fields.u64()),
        }
    }

    /// What stands behind a picture.
    fn says<'a>(self, fields: &mut Fields<'a>) -> Says<'a> {
        match self {
            Form::Whole => Says::Planes(fields.rest()),
            Form::Drawn => Says::Digest(fields.u64()),
        }
    }
}

/// The longest plane that a call is lent.
const LONGEST_PLANE: usize = 4100;

/// The longest list of weights.
const MOST_WEIGHTS: usize = 20;

/// What a frame says of a call: the entry, the sides, the samples of the picture and of the weights, the lengths of the four lists, and
/// what it leaves.
#[derive(Clone, Copy, Debug)]
struct Call<'a> {
    entry: Entry,
    shape: Shape,
    picture: Samples<'a>,
    img: usize,
    kernel: Samples<'a>,
    weights: usize,
    temp: usize,
    out: usize,
    says: Says<'a>,
}

impl<'a> Call<'a> {
    /// A blur has the sides, the number of weights, and then the weights.
    fn blur(form: Form, mut fields: Fields<'a>) -> Self
        ensures { (result.img ≤ 4100) × ((result.weights ≤ 20) × ((result.temp ≤ 4100) × (result.out ≤ 4100))) }
    {
        let shape = small_shape(&mut fields);
        let n = count(shape);
        let weights = usize::from(fields.u8()).min(16);
        Call {
            entry: Entry::Blur,
            shape,
            kernel: Samples::Each(fields.take(4 * weights)),
            weights,
            picture: form.samples(&mut fields, n),
            img: n,
            temp: n,
            out: n,
            says: form.says(&mut fields),
        }
    }

    /// A response has no weights, and no plane between.
    fn response(form: Form, mut fields: Fields<'a>) -> Self
        ensures { (result.img ≤ 4100) × ((result.weights ≤ 20) × ((result.temp ≤ 4100) × (result.out ≤ 4100))) }
    {
        let shape = small_shape(&mut fields);
        let n = count(shape);
        Call {
            entry: Entry::Response,
            shape,
            picture: form.samples(&mut fields, n),
            img: n,
            kernel: Samples::Each(&[]),
            weights: 0,
            temp: 0,
            out: n,
            says: form.says(&mut fields),
        }
    }

    /// A call of any entry, of which the frame says the number that it answers.
    fn number(mut fields: Fields<'a>) -> Self
        ensures { (result.img ≤ 4100) × ((result.weights ≤ 20) × ((result.temp ≤ 4100) × (result.out ≤ 4100))) }
    {
        Call {
            entry: Entry::from(fields.u8()),
            shape: wide_shape(&mut fields),
            says: Says::Number(fields.u8()),
            img: (fields.u32() as usize).min(LONGEST_PLANE),
            picture: Samples::but_one(&mut fields),
            weights: (fields.u32() as usize).min(MOST_WEIGHTS),
            kernel: Samples::but_one(&mut fields),
            temp: (fields.u32() as usize).min(LONGEST_PLANE),
            out: (fields.u32() as usize).min(LONGEST_PLANE),
        }
    }

    /// Whether the call leaves what the frame says.
    fn is_alike(self) -> bool
        requires { (self.img ≤ 4100) × ((self.weights ≤ 20) × ((self.temp ≤ 4100) × (self.out ≤ 4100))) }
    {
        let mut img = [0.0f32; LONGEST_PLANE];
        let mut weights = [0.0f32; MOST_WEIGHTS];
        let mut temp = [0.0f32; LONGEST_PLANE];
        let mut out = [0.0f32; LONGEST_PLANE];
        let img = &mut img[..self.img];
        let weights = &mut weights[..self.weights];
        let temp = &mut temp[..self.temp];
        let out = &mut out[..self.out];
        self.picture.fill(img);
        self.kernel.fill(weights);
        let number = self.entry.call(img, self.shape, weights, temp, out);
        self.says.is_left(number, temp, out)
    }
}

/// A threshold stands between the sides and the plane.
fn is_threshold_alike(mut fields: Fields) -> bool {
    let mut plane = [0.0f32; MOST_SAMPLES];
    let shape = small_shape(&mut fields);
    let said = fields.u32();
    let plane = &mut plane[..count(shape)];
    Samples::Each(fields.rest()).fill(plane);
    response_threshold(plane, shape).is_ok_and(|lowest| pattern_of(lowest) == said)
}

/// Whether the entries answer what a frame says. It is not inlined, so that the arrays of its kinds lie on the stack only while it runs.
#[inline(never)]
pub fn is_alike(frame: &[u8]) -> Result<bool, UnknownKind> {
    let mut fields = Fields::new(frame);
    Ok(match Kind::try_from(fields.u8())? {
        Kind::Blur(form) => Call::blur(form, fields).is_alike(),
        Kind::Response(form) => Call::response(form, fields).is_alike(),
        Kind::Threshold => is_threshold_alike(fields),
        Kind::Number => Call::number(fields).is_alike(),
    })
}
