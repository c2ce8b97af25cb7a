// Text into a lent buffer: bytes and decimal numbers, one after the other, cut where the buffer ends.
#![tactic(auto)]

ghost use Rattle.std.specs.Prelude.{◌≡◌, [], ◌∷◌, ◌++◌, ◌≤◌, nat_abs, length};

// A text in a lent buffer, and where it ends.
#[derive(Drop)]
pub struct Text<'a> {
    pub out: &'a mut [u8],
    pub at: usize,
    pub ghost in_range: { at ≤ length out.now },
}

impl<'a> Text<'a> {
    ghost use Rattle.text.specs.Text.{decimal, signed_decimal};
    ghost use Rattle.text.specs.Writes.{Writes};

    // One byte more, where there is room.
    pub fn byte(&mut self, b: u8)
        ensures { Writes self.old (b ∷ []) self.new }
    {
        if self.at < self.out.len() {
            self.out[self.at] = b;
            self.at += 1;
        }
    }

    // The bytes of a text, as far as there is room.
    pub fn bytes(&mut self, text: &[u8])
        ensures { Writes self.old text.now self.new }
    {
        let n = text.len().min(self.out.len() - self.at);
        self.out[self.at..self.at + n].copy_from_slice(&text[..n]);
        self.at += n;
    }

    // A number in decimal.
    pub fn number(&mut self, n: u64)
        ensures { Writes self.old (decimal n) self.new }
    {
        let mut digits = [0u8; 20];
        let k = io::decimal(n, &mut digits);
        self.bytes(&digits[..k]);
    }

    // A text, and a number in decimal after it.
    pub fn labelled(&mut self, label: &[u8], n: u64)
        ensures { Writes self.old (label.now ++ decimal n) self.new }
    {
        self.bytes(label);
        self.number(n);
    }

    // A signed number in decimal.
    pub fn signed(&mut self, z: i16)
        ensures { Writes self.old (signed_decimal z) self.new }
    {
        if z < 0 {
            self.byte(b'-');
        }
        self.number(magnitude(z));
    }
}

// The magnitude of a signed number.
pub fn magnitude(z: i16) -> u64
    ensures { (result ≡ nat_abs z) × (result ≤ 32768) }
{
    z.unsigned_abs() as u64
}
