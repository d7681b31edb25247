//! Coordinates that refusal 8 lets through, and their rounding, worked out from a float's bits.
ghost use Rattle.std.specs.Prelude.{◌≡◌, true, false, ◌/◌, ◌%◌, ◌^◌, ◌≤◌, nat_abs, IfOk, IfErr};
ghost use Rattle.std.specs.Float.{binary32};
ghost use Rattle.std.specs.Float.Ieee.{of_bits};
ghost use Rattle.places.specs.Rounding.{bad_coordinate, pixel_of, in_1024ths, nearest_times};

use refusals::Refusal;

/// A coordinate that refusal 8 lets through: a number of magnitude below 16,384.
#[derive(Clone, Copy, Debug, PartialEq)]
pub struct Coordinate {
    value: f32,
    ghost bounded: { bad_coordinate value ≡ false },
}

/// Refusal 8 for one coordinate.
pub(crate) fn bad_coordinate(x: f32) -> bool
    ensures { result ≡ bad_coordinate x }
{
    !(-16384.0 < x && x < 16384.0)
}

/// The magnitude of the float with this bit pattern, times 2^digits, to the nearest whole number.
fn nearest_times(pattern: u32, digits: u32) -> u32
    requires { (pattern % 2 ^ 31 / 2 ^ 23 ≤ 140) × (digits ≤ 10) }
    ensures { result ≡ nearest_times (2 ^ digits) (of_bits binary32 pattern) }
{
    let exponent = pattern % 0x8000_0000 / 0x80_0000;
    let m = 0x80_0000 + pattern % 0x80_0000;
    // It is m / 2^d rounded, or less where the exponent's field is 0.
    let d = 150 - digits - exponent;
    if 30 < d {
        return 0;
    }
    (2 * m + (1 << d)) >> (d + 1)
}

impl Coordinate {
    /// The coordinate, where it is small enough, and else refusal 8.
    pub fn new(value: f32) -> Result<Coordinate, Refusal>
        ensures ok { IfOk result (λ c. (c.value ≡ value) × (bad_coordinate value ≡ false)) }
        ensures refused { IfErr result (λ e. (e ≡ Refusal.Corner) × (bad_coordinate value ≡ true)) }
    {
        if bad_coordinate(value) {
            return Err(Refusal::Corner);
        }
        Ok(Coordinate { value })
    }

    /// Rounded to a pixel: a half goes up, and all negatives go to 0.
    pub fn pixel(self) -> usize
        ensures { result ≡ pixel_of self.value }
    {
        let pattern = f32::to_bits(self.value);
        if 0x8000_0000 <= pattern {
            return 0;
        }
        nearest_times(pattern, 0) as usize
    }

    /// Rounded to 1024ths of a pixel: a half goes away from zero.
    pub fn in_1024ths(self) -> i64
        ensures value { result ≡ in_1024ths self.value }
        ensures small { nat_abs result ≤ 2 ^ 24 }
    {
        let pattern = f32::to_bits(self.value);
        let n = nearest_times(pattern, 10) as i64;
        if 0x8000_0000 <= pattern { -n } else { n }
    }
}
