//! Frames of levels, and of a digest of the answers to many levels.
use crate::fields::TagFields;
use muosleap::detector::bit_code;
use refusals::Refusal;
use vectors::Fields;
use vectors::answers::number_of;
use vectors::digest::Digest;
use vectors::frames::UnknownKind;

#[derive(Clone, Copy, Debug, PartialEq, Eq)]
enum Kind {
    Levels,
    Digest,
}

impl TryFrom<u8> for Kind {
    type Error = UnknownKind;

    fn try_from(number: u8) -> Result<Self, UnknownKind> {
        match number {
            1 => Ok(Kind::Levels),
            2 => Ok(Kind::Digest),
            _ => Err(UnknownKind(number)),
        }
    }
}

fn are_levels_alike(mut fields: Fields) -> bool {
    let band = fields.u8();
    let allowed = fields.u32();
    let said = fields.word();
    Some(bit_code(fields.rest(), band, allowed).map_err(Refusal::number)) == said
}

/// The level `by` above 30 below `middle`, within 0 to 255.
fn about(middle: usize, by: usize) -> u8 {
    middle.saturating_add(by).saturating_sub(30).min(255) as u8
}

/// The levels number `k` of a digest: two, and 62 in steps of one about half their sum.
fn spread(k: u16) -> [u8; 64] {
    let [one, other] = k.to_le_bytes();
    let middle = (usize::from(one) + usize::from(other)) / 2;
    let mut levels = [0u8; 64];
    levels[0] = one;
    levels[1] = other;
    for (by, level) in levels[2..].iter_mut().enumerate() {
        *level = about(middle, by);
    }
    levels
}

/// The answer to the levels number `k`: with band 10 and 64 allowed, or with a band and a number allowed that vary.
fn code_spread(k: u16, is_varied: bool) -> Result<u64, Refusal> {
    let levels = spread(k);
    if is_varied {
        bit_code(&levels, (k % 32) as u8, u32::from(k / 32 % 64))
    } else {
        bit_code(&levels, 10, 64)
    }
}

fn is_digest_alike(mut fields: Fields) -> bool {
    let is_varied = fields.u8() != 0;
    let mut digest = Digest::new();
    for k in 0..=u16::MAX {
        let answer = code_spread(k, is_varied);
        digest.add_u8(number_of(answer));
        digest.add(&answer.unwrap_or(0).to_le_bytes());
    }
    digest.value() == fields.u64()
}

pub fn is_alike(frame: &[u8]) -> Result<bool, UnknownKind> {
    let mut fields = Fields::new(frame);
    Ok(match Kind::try_from(fields.u8())? {
        Kind::Levels => are_levels_alike(fields),
        Kind::Digest => is_digest_alike(fields),
    })
}
