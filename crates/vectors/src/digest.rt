//! The digest FNV-1a of 64 bits.
ghost use Rattle.std.specs.Prelude.{◌≡◌};

/// It begins so.
pub const DIGEST: u64 = 0xcbf2_9ce4_8422_2325;

/// The prime that it is multiplied by with each byte, 2^40 + 435.
const PRIME: u64 = 0x0100_0000_01b3;

/// The digest of bytes, and of numbers by their bytes, low byte first.
#[derive(Clone, Copy, Debug, PartialEq, Eq)]
pub struct Digest(u64);

impl Digest {
    /// The digest of nothing.
    pub fn new() -> Self
        ensures { result.0 ≡ DIGEST }
    {
        Digest(DIGEST)
    }

    pub fn value(self) -> u64
        ensures { result ≡ self.0 }
    {
        let Digest(value) = self;
        value
    }

    /// With one byte more.
    pub fn add_u8(&mut self, byte: u8) {
        self.0 = (self.0 ^ u64::from(byte)).wrapping_mul(PRIME);
    }

    /// With some bytes more, one by one.
    pub fn add(&mut self, bytes: &[u8]) {
        for byte in bytes {
            self.add_u8(*byte);
        }
    }
}
