//! Bytes, of a text or of a report, put into a buffer piece by piece.
#![tactic(auto)]

ghost use Rattle.std.specs.Prelude.{◌≡◌, [], ◌∷◌, ◌<◌, length};
ghost use Rattle.text.specs.Text.{space, decimal};
ghost use Rattle.text.specs.Put.{Put, HasRoom};

/// A lent buffer, and the place in it behind what has been put. No byte before that place or behind what is put changes.
#[derive(Drop)]
pub struct Output<'a> {
    pub bytes: &'a mut [u8],
    pub at: usize,
}

impl<'a> Output<'a> {
    /// Puts a text.
    pub fn put(&mut self, text: &[u8])
        requires { HasRoom self.old (length text.now) }
        ensures { Put text.now self.old self.new }
    {
        let end = self.at + text.len();
        self.bytes[self.at..end].copy_from_slice(text);
        self.at = end;
    }

    /// Puts one byte.
    pub fn put_byte(&mut self, byte: u8)
        requires { HasRoom self.old 1 }
        ensures { Put (byte ∷ []) self.old self.new }
    {
        self.bytes[self.at] = byte;
        self.at += 1;
    }

    /// Puts a number of one or two digits in decimal. It cannot fail, where std's writers answer a `Result`.
    #[tactic(auto, using(crate::proofs::Decimal::one_long, crate::proofs::Decimal::two_long, crate::proofs::Join::put_digit, crate::proofs::Join::put_digits))]
    pub fn put_decimal(&mut self, n: u8)
        requires { (n < 100) × HasRoom self.old (length (decimal n)) }
        ensures { Put (decimal n) self.old self.new }
    {
        if n < 10 {
            self.put_byte(b'0' + n);
        } else {
            self.put_byte(b'0' + n / 10);
            self.put_byte(b'0' + n % 10);
        }
    }

    /// Puts a space and a number of one or two digits in decimal.
    pub fn put_number(&mut self, n: u8)
        requires { (n < 100) × HasRoom self.old 3 }
        ensures { Put (space ∷ decimal n) self.old self.new }
    {
        self.put_byte(b' ');
        self.put_decimal(n);
    }
}
