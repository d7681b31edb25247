//! Frames of a small report that is damaged at each place with each byte, and read each time.
ghost use Rattle.std.specs.Prelude.{◌≤◌};

use crate::calls;
use crate::calls::{Outcome, Output};
use vectors::Fields;
use vectors::digest::Digest;

/// At the place stands the byte, instead of as many bytes of the report as are skipped: none, one, two, or all.
#[derive(Clone, Copy, Debug, PartialEq, Eq)]
struct Damage {
    place: usize,
    byte: u8,
    skipped: usize,
}

impl Damage {
    /// The report afterwards, at the front, and its length. At most 126 bytes stand behind the byte.
    fn damaged(self, report: &[u8]) -> ([u8; 128], usize)
        ensures { result.1 ≤ 128 }
    {
        let mut copy = [0u8; 128];
        let mut fields = Fields::new(report);
        let before = fields.take(self.place);
        fields.take(self.skipped);
        let after = fields.take(126);
        let bytes = before
            .iter()
            .copied()
            .chain([self.byte])
            .chain(after.iter().copied());
        for (to, from) in copy.iter_mut().zip(bytes) {
            *to = from;
        }
        (copy, (before.len() + 1 + after.len()).min(128))
    }
}

fn read_damaged(damage: Damage, report: &[u8]) -> Outcome {
    let (copy, size) = damage.damaged(report);
    let mut rows = calls::before::<u64, 32>();
    let mut corners = calls::before::<f32, 64>();
    let mut own = calls::before::<u8, 128>();
    calls::read_and_back(&copy[..size], &mut rows, &mut corners, &mut own)
}

/// All outcomes as one: how many were accepted, and the digest of them.
#[derive(Clone, Copy, Debug, PartialEq, Eq)]
struct Sum {
    accepted: usize,
    digest: Digest,
    kept: bool,
}

impl Sum {
    fn add(&mut self, got: Outcome) {
        let Output { count, digest } = got.output.unwrap_or_default();
        self.digest.add_u8(got.output.err().unwrap_or(0));
        self.digest.add(&count.to_le_bytes()[..1]);
        self.digest.add(&digest.to_le_bytes());
        self.kept &= got.kept;
        if got.output.is_ok() {
            self.accepted = self.accepted.saturating_add(1);
        }
    }
}

/// At each place, the end included.
fn read_all(skipped: usize, report: &[u8]) -> Outcome {
    let mut sum = Sum {
        accepted: 0,
        digest: Digest::new(),
        kept: true,
    };
    for place in 0..=report.len().min(126) {
        for byte in 0..=255 {
            let damage = Damage {
                place,
                byte,
                skipped,
            };
            sum.add(read_damaged(damage, report));
        }
    }
    Outcome {
        output: Ok(Output {
            count: sum.accepted,
            digest: sum.digest.value(),
        }),
        kept: sum.kept,
    }
}

/// A small report, behind the number of bytes that are skipped.
pub fn is_alike(mut fields: Fields) -> bool {
    let expected = Outcome::read(&mut fields);
    let skipped = usize::from(fields.u8());
    Some(read_all(skipped, fields.rest())) == expected
}
