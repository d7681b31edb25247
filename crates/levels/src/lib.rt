//! Levels to bits: the levels of a tag's modules, from the first on, give a word.
#![tactic(auto)]

ghost use Rattle.std.specs.Prelude.{◌≡◌, ◌+◌, ◌-◌, ◌/◌, ◌<◌, ◌≤◌, length};
ghost use Rattle.levels.specs.Levels.{least_of, greatest_of, word_of, unsure_of, code_of};
ghost use Rattle.refusals.specs.Numbers.{outcome};

use refusals::Refusal;

/// The least and the greatest of some levels.
#[derive(Clone, Copy, Debug, PartialEq, Eq)]
pub struct Range {
    pub least: u8,
    pub greatest: u8,
}

impl Range {
    /// Half of the sum of the two, halves up.
    pub fn middle(self) -> u8
        ensures { result ≡ (self.least + self.greatest + 1) / 2 }
    {
        ((u32::from(self.least) + u32::from(self.greatest) + 1) / 2) as u8
    }

    /// How far the two are apart.
    pub fn contrast(self) -> u8
        requires { self.least ≤ self.greatest }
        ensures { result ≡ self.greatest - self.least }
    {
        self.greatest - self.least
    }
}

/// The least and the greatest level.
pub fn range_of(levels: &[u8]) -> Range
    requires { 0 < length levels.now }
    ensures least { result.least ≡ least_of levels.now }
    ensures greatest { result.greatest ≡ greatest_of levels.now }
    ensures ordered { result.least ≤ result.greatest }
{
    let mut least = levels[0];
    let mut greatest = levels[0];
    for &level in levels {
        least = least.min(level);
        greatest = greatest.max(level);
    }
    Range { least, greatest }
}

/// The number of unsure levels: those nearer to the middle than the band. A number of 32 bits counts them, since the library's `count`,
/// which has 64, takes a third more time.
fn unsure_levels(middle: u8, band: u8, levels: &[u8]) -> u32
    requires { length levels.now ≤ 64 }
    ensures { result ≡ unsure_of middle band levels.now }
{
    let mut unsure: u32 = 0;
    for &level in levels {
        unsure += u32::from(level.abs_diff(middle) < band);
    }
    unsure
}

/// The word of the levels: 1 for a level above the middle, else 0, and the first level the highest bit.
fn word_of(middle: u8, levels: &[u8]) -> u64
    requires { length levels.now ≤ 64 }
    ensures { result ≡ word_of middle levels.now }
{
    let mut bits = 0;
    for &level in levels {
        bits = bits * 2 + u64::from(middle < level);
    }
    bits
}

/// Levels to bits (`bit_code` of the original), for 1 to 64 levels: the word. Refuses levels less than 50 apart as `Flat`, and more
/// unsure levels than allowed as `Unsure`.
pub fn bit_code(levels: &[u8], band: u8, allowed: u32) -> Result<u64, Refusal>
    requires { (0 < length levels.now) × (length levels.now ≤ 64) }
    ensures { outcome result ≡ code_of levels.now band allowed }
{
    let range = range_of(levels);
    if range.contrast() < 50 {
        return Err(Refusal::Flat);
    }
    let middle = range.middle();
    if allowed < unsure_levels(middle, band, levels) {
        return Err(Refusal::Unsure);
    }
    Ok(word_of(middle, levels))
}
