//! Why a call is refused.
ghost use Rattle.std.specs.Prelude.{◌≡◌};
ghost use Rattle.refusals.specs.Numbers.{number_of};

/// Why a call is refused. What each means is said in include/muosleap.h, beside its number.
#[derive(Clone, Copy, Debug, PartialEq, Eq)]
pub enum Refusal {
    Plane = 1,
    Weights = 2,
    Sample = 3,
    Threshold = 4,
    Worklist = 5,
    Table = 6,
    Alike = 7,
    Corner = 8,
    CornerOutside = 9,
    SampleOutside = 10,
    Flat = 11,
    Unsure = 12,
    Unread = 13,
    Print = 14,
    Count = 15,
    Room = 16,
    Grid = 17,
    Repeated = 18,
    Long = 19,
    NoReading = 20,
}

impl Refusal {
    /// The number that the refusal has outside.
    pub fn number(self) -> u8
        ensures { result ≡ number_of self }
    {
        self as u8
    }
}
