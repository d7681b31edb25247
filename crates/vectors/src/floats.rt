//! Floats by their bit patterns: lists that a frame gives, and lists held against a frame.
ghost use Rattle.std.specs.Prelude.{◌≡◌, drop};

use crate::digest::Digest;
use crate::fields::Fields;
use crate::next_number;
use std::num::nearest_u32_to_f32;

/// The float of a pattern, where a NaN's pattern gives a NaN, and the pattern of a float, the same for every NaN.
pub use std::num::{f32_from_bits_with_nan as float_of, f32_to_bits_with_nan as pattern_of};

/// How a list of floats is given.
#[derive(Clone, Copy, Debug)]
pub enum Samples<'a> {
    /// One by one in four bytes each, 0.0 past the end.
    Each(&'a [u8]),
    /// By the generator from a seed, each from 0.0 to below 1.0 by the upper 24 bits of a number.
    Drawn(u64),
    /// All with one value, but for the float at one place.
    ButOne { most: f32, place: usize, one: f32 },
    /// By the bits of a number, the lowest first: -1.0 for a one and 0.0 for a zero.
    Bits(u64),
}

impl Samples<'_> {
    /// One value, a place, and the other value, in four bytes each.
    pub fn but_one(fields: &mut Fields) -> Self
        ensures { fields.new.left.now ≡ drop 12 fields.old.left.now }
    {
        Samples::ButOne {
            most: fields.f32(),
            place: fields.u32() as usize,
            one: fields.f32(),
        }
    }

    /// Fills a list.
    pub fn fill(self, out: &mut [f32]) {
        match self {
            Samples::Each(s) => fill_each(s, out),
            Samples::Drawn(seed) => fill_drawn(seed, out),
            Samples::ButOne { most, place, one } => fill_but_one(most, place, one, out),
            Samples::Bits(bits) => fill_bits(bits, out),
        }
    }
}

fn fill_each(s: &[u8], out: &mut [f32]) {
    let mut fields = Fields::new(s);
    for x in out {
        *x = fields.f32();
    }
}

fn fill_drawn(seed: u64, out: &mut [f32]) {
    let mut number = seed;
    for x in out {
        number = next_number(number);
        *x = nearest_u32_to_f32((number >> 40) as u32) / 16777216.0;
    }
}

fn fill_but_one(most: f32, place: usize, one: f32, out: &mut [f32]) {
    out.fill(most);
    if let Some(x) = out.get_mut(place) {
        *x = one;
    }
}

fn fill_bits(bits: u64, out: &mut [f32]) {
    let mut left = bits;
    for x in out {
        *x = if left % 2 == 1 { -1.0 } else { 0.0 };
        left /= 2;
    }
}

/// Whether a list is, bit for bit, as long a list of floats as the four bytes each in `s`.
pub fn are_alike(s: &[u8], xs: &[f32]) -> bool {
    let (patterns, _) = s.as_chunks::<4>();
    patterns.len() == xs.len()
        && xs
            .iter()
            .zip(patterns)
            .all(|(x, pattern)| pattern_of(*x).to_le_bytes() == *pattern)
}

impl Digest {
    /// With the patterns of floats, four bytes each.
    pub fn add_floats(&mut self, xs: &[f32]) {
        for x in xs {
            self.add(&pattern_of(*x).to_le_bytes());
        }
    }
}
