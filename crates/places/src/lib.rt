//! Sample places of a quad: refusals 8 and 9, and the place of a module in whole numbers.
#![tactic(auto)]

mod coordinate;
mod corners;

ghost use Rattle.std.specs.Prelude.{◌≡◌, ◌*◌, ◌^◌, ◌<◌, ◌≤◌, nat_abs};
ghost use Rattle.places.specs.Rounding.{in_1024ths};
ghost use Rattle.places.specs.Place.{axis_of, from_middle, module_place, module_pixel};
ghost use Rattle.places.specs.Bounds.{Module};

use coordinate::Coordinate;
pub use corners::Corners;

/// S, A and B of four x or of four y, in 1024ths of a pixel. It holds no bound: the definitions make one of any corners.
#[derive(Clone, Copy, Debug, PartialEq, Eq)]
pub struct Axis {
    pub s: i64,
    pub a: i64,
    pub b: i64,
}

/// Those of the four x, and those of the four y.
#[derive(Clone, Copy, Debug, PartialEq, Eq)]
pub struct Axes {
    pub x: Axis,
    pub y: Axis,
}

impl Axis {
    /// That of the x or of the y of four corners.
    fn between(x0: Coordinate, x1: Coordinate, x2: Coordinate, x3: Coordinate) -> Axis
        ensures { result ≡ axis_of (in_1024ths x0.value) (in_1024ths x1.value) (in_1024ths x2.value) (in_1024ths x3.value) }
    {
        let q0 = x0.in_1024ths();
        let q1 = x1.in_1024ths();
        let q2 = x2.in_1024ths();
        let q3 = x3.in_1024ths();
        Axis {
            s: q0 + q1 + q2 + q3,
            a: q2 + q3 - q0 - q1,
            b: q1 + q2 - q0 - q3,
        }
    }

    /// The dividend of the place of module (i, j); the divisor is 4096 * side.
    fn place(self, side: usize, i: usize, j: usize) -> i64
        requires { Module self side i j }
        ensures value { result ≡ module_place self side i j }
        ensures small { nat_abs result ≤ 3 * 2 ^ 30 }
    {
        self.s * (side as i64) + from_middle(side, i) * self.a + from_middle(side, j) * self.b
    }

    /// The pixel column or row of module (i, j) of a tag of `side` modules, its border among them.
    pub fn pixel(self, side: usize, i: usize, j: usize) -> usize
        requires { Module self side i j }
        ensures { result ≡ module_pixel self side i j }
    {
        let place = self.place(side, i, j);
        if place < 0 {
            return 0;
        }
        let side = side as u32;
        ((place as u32 + 2048 * side) / (4096 * side)) as usize
    }
}

/// 2i - side + 1, which is twice how far module i lies from the middle of the tag, counted in modules.
fn from_middle(side: usize, i: usize) -> i64
    requires { (side ≤ 16) × (i < side) }
    ensures { result ≡ from_middle side i }
{
    2 * (i as i64) - (side as i64) + 1
}
