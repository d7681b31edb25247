//! Corners: "a corner is a struct of two floats", and a quad is four of them. y grows downward.
#![tactic(auto)]

ghost use Rattle.std.specs.Prelude.{◌≡◌, ◌+◌, ◌*◌, ◌≤◌, length};
ghost use Rattle.std.proofs.lemmas.List.Edits.{sets};
ghost use Rattle.points.specs.Turned.{turned_left, reversed, answer_corners};
ghost use Rattle.points.specs.Numbers.{quad_size, point_at, quad_at, numbers_of};

/// The numbers of a quad: x0 y0 x1 y1 x2 y2 x3 y3.
pub const QUAD_SIZE: usize = 8;

/// A corner, in pixels.
#[derive(Clone, Copy, Debug, PartialEq)]
pub struct Point {
    pub x: f32,
    pub y: f32,
}

/// The four corners of a tag, one after the other round it.
#[derive(Clone, Copy, Debug, PartialEq)]
pub struct Quad {
    pub q0: Point,
    pub q1: Point,
    pub q2: Point,
    pub q3: Point,
}

/// Its corners' numbers, one corner after the other.
impl From<Quad> for [f32; QUAD_SIZE] {
    ghost use Rattle.points.specs.Numbers.{numbers_of};

    ghost from_gives = { λ quad numbers. numbers ≡ numbers_of quad };

    fn from(quad: Quad) -> [f32; QUAD_SIZE] {
        let Quad { q0, q1, q2, q3 } = quad;
        [q0.x, q0.y, q1.x, q1.y, q2.x, q2.y, q3.x, q3.y]
    }
}

/// The quad turned left by `turn`: start `turn` of it, for a turn from 0 to 3.
pub fn rotate_left(quad: Quad, turn: u8) -> Quad
    ensures { result ≡ turned_left turn quad }
{
    let Quad { q0, q1, q2, q3 } = quad;
    match turn % 4 {
        0 => quad,
        1 => Quad {
            q0: q1,
            q1: q2,
            q2: q3,
            q3: q0,
        },
        2 => Quad {
            q0: q2,
            q1: q3,
            q2: q0,
            q3: q1,
        },
        _ => Quad {
            q0: q3,
            q1: q0,
            q2: q1,
            q3: q2,
        },
    }
}

fn reverse(quad: Quad) -> Quad
    ensures { result ≡ reversed quad }
{
    let Quad { q0, q1, q2, q3 } = quad;
    Quad {
        q0: q3,
        q1: q2,
        q2: q1,
        q3: q0,
    }
}

/// The corners of a tag that is read at a turn.
pub fn answer_corners(quad: Quad, turn: u8) -> Quad
    ensures { result ≡ answer_corners quad turn }
{
    reverse(rotate_left(quad, turn))
}

/// The corner at place `at` of a list of numbers.
fn point_at(numbers: &[f32], at: usize) -> Point
    requires { at + 2 ≤ length numbers.now }
    ensures { result ≡ point_at numbers.now at }
{
    Point {
        x: numbers[at],
        y: numbers[at + 1],
    }
}

/// Quad q of a list.
pub fn quad_at(quads: &[f32], q: usize) -> Quad
    requires { quad_size * q + quad_size ≤ length quads.now }
    ensures { result ≡ quad_at quads.now q }
{
    let at = QUAD_SIZE * q;
    let q0 = point_at(quads, at);
    let q1 = point_at(quads, at + 2);
    let q2 = point_at(quads, at + 4);
    let q3 = point_at(quads, at + 6);
    Quad { q0, q1, q2, q3 }
}

/// A quad's eight numbers, as quad q of a list.
#[tactic(auto, using(crate::proofs::Numbers::part_stores))]
pub fn put_quad(quads: &mut [f32], q: usize, quad: Quad)
    requires { quad_size * q + quad_size ≤ length quads.old }
    ensures { quads.new ≡ sets quads.old (quad_size * q) (numbers_of quad) }
{
    let at = QUAD_SIZE * q;
    quads[at..at + QUAD_SIZE].copy_from_slice(&<[f32; QUAD_SIZE]>::from(quad));
}
