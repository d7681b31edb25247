//! Corners that refusal 8 lets through: refusal 9, and where the modules between them lie.
ghost use Rattle.std.specs.Prelude.{◌≡◌, true, false, IfOk, IfErr};
ghost use Rattle.places.specs.Corners.{bad_corner, bad_corners};

use crate::coordinate::{Coordinate, bad_coordinate};
use crate::{Axes, Axis};
use points::{Point, Quad};
use refusals::Refusal;

/// Refusal 8 for one corner.
fn bad_corner(point: Point) -> bool
    ensures { result ≡ bad_corner point }
{
    bad_coordinate(point.x) | bad_coordinate(point.y)
}

/// Refusal 8. All eight coordinates are tested, with no early exit from one to the next, so that the compiler can test several at once.
fn bad_corners(quad: Quad) -> bool
    ensures { result ≡ bad_corners quad }
{
    bad_corner(quad.q0) | bad_corner(quad.q1) | bad_corner(quad.q2) | bad_corner(quad.q3)
}

/// A corner that refusal 8 lets through.
#[derive(Clone, Copy, Debug, PartialEq)]
struct Corner {
    x: Coordinate,
    y: Coordinate,
}

impl Corner {
    ghost use Rattle.places.specs.Corners.{corner_outside};
    ghost use Rattle.places.specs.Checked.{point_of};

    /// The corner at a point that was tested.
    fn new(point: Point) -> Corner
        requires { bad_corner point ≡ false }
        ensures { point_of result ≡ point }
    {
        let x = Coordinate::new(point.x).unwrap();
        let y = Coordinate::new(point.y).unwrap();
        Corner { x, y }
    }

    fn is_outside(self, width: usize, height: usize) -> bool
        ensures { result ≡ corner_outside width height (point_of self) }
    {
        width <= self.x.pixel() || height <= self.y.pixel()
    }
}

/// A quad that refusal 8 lets through.
#[derive(Clone, Copy, Debug, PartialEq)]
pub struct Corners {
    q0: Corner,
    q1: Corner,
    q2: Corner,
    q3: Corner,
}

impl Corners {
    ghost use Rattle.places.specs.Corners.{corners_outside};
    ghost use Rattle.places.specs.Place.{axes_of};
    ghost use Rattle.places.specs.Checked.{quad_of};

    /// The corners, where all eight coordinates are small enough, and else refusal 8.
    pub fn new(quad: Quad) -> Result<Corners, Refusal>
        ensures ok { IfOk result (λ c. (quad_of c ≡ quad) × (bad_corners quad ≡ false)) }
        ensures refused { IfErr result (λ e. (e ≡ Refusal.Corner) × (bad_corners quad ≡ true)) }
    {
        if bad_corners(quad) {
            return Err(Refusal::Corner);
        }
        let q0 = Corner::new(quad.q0);
        let q1 = Corner::new(quad.q1);
        let q2 = Corner::new(quad.q2);
        let q3 = Corner::new(quad.q3);
        Ok(Corners { q0, q1, q2, q3 })
    }

    /// Refusal 9, on the corners as given.
    pub fn is_outside(self, width: usize, height: usize) -> bool
        ensures { result ≡ corners_outside width height (quad_of self) }
    {
        self.q0.is_outside(width, height)
            || self.q1.is_outside(width, height)
            || self.q2.is_outside(width, height)
            || self.q3.is_outside(width, height)
    }

    /// S, A and B of the four x, and of the four y.
    pub fn axes(self) -> Axes
        ensures { result ≡ axes_of (quad_of self) }
    {
        let Corners { q0, q1, q2, q3 } = self;
        Axes {
            x: Axis::between(q0.x, q1.x, q2.x, q3.x),
            y: Axis::between(q0.y, q1.y, q2.y, q3.y),
        }
    }
}
