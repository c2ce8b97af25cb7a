// Whole numbers of several bytes in a buffer, low byte first.
#![tactic(auto, unfolding(crate::specs::Word::word, crate::specs::Word::long, crate::specs::Word::signed, crate::specs::Word::signed_at))]

ghost use Rattle.std.specs.Prelude.{◌≡◌, ◌+◌, ◌<◌, length};
ghost use Rattle.words.specs.Word.{word, long, signed, signed_at};

// Two bytes from place p.
pub fn word_at(s: &[u8], p: usize) -> u16
    requires { p + 1 < length s.now }
    ensures { result ≡ word s.now p }
{
    u16::from_le_bytes([s[p], s[p + 1]])
}

// Four bytes from place p.
pub fn long_at(s: &[u8], p: usize) -> u32
    requires { p + 3 < length s.now }
    ensures { result ≡ long s.now p }
{
    u32::from_le_bytes([s[p], s[p + 1], s[p + 2], s[p + 3]])
}

// 16 bits as a signed number.
pub fn from_bits(u: u16) -> i16
    ensures { result ≡ signed u }
{
    u.cast_signed()
}

// Two bytes from place p as a signed number.
pub fn signed_at(s: &[u8], p: usize) -> i16
    requires { p + 1 < length s.now }
    ensures { result ≡ signed_at s.now p }
{
    from_bits(word_at(s, p))
}
