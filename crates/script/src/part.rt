// Lists of values with room of their own: what is lent to a call, or what a list of an upload has.
ghost use Rattle.std.specs.Prelude.{◌≡◌, OnErr};

use crate::command::Unknown;
use crate::digest::Crc;
use arrayvec::ArrayVec;
use std::num::TryFromIntError;

// Room for the values of each.
const ROOM: usize = 320;

// At most so many values.
pub type Part<T> = ArrayVec<T, ROOM>;

// What a buffer holds: numbers of 8 or 16 bits.
pub trait Value: Copy + Default + TryFrom<i32, Error = TryFromIntError> {
    // A number wrapped to the type.
    fn wrapped(n: usize) -> Self;

    // The digest with its bytes more, low byte first.
    fn digested<'a>(self, crc: Crc<'a>) -> Crc<'a>;
}

impl Value for u8 {
    fn wrapped(n: usize) -> u8 {
        (n & 0xFF) as u8
    }

    fn digested<'a>(self, crc: Crc<'a>) -> Crc<'a> {
        crc.bytes(&self.to_le_bytes())
    }
}

impl Value for u16 {
    fn wrapped(n: usize) -> u16 {
        (n & 0xFFFF) as u16
    }

    fn digested<'a>(self, crc: Crc<'a>) -> Crc<'a> {
        crc.bytes(&self.to_le_bytes())
    }
}

impl Value for i16 {
    fn wrapped(n: usize) -> i16 {
        u16::wrapped(n).cast_signed()
    }

    fn digested<'a>(self, crc: Crc<'a>) -> Crc<'a> {
        crc.bytes(&self.to_le_bytes())
    }
}

// Fill the values: that at place p with p · step + start, wrapped to its type.
pub fn fill<T: Value>(values: &mut [T], step: usize, start: usize) {
    for (p, value) in values.iter_mut().enumerate() {
        *value = T::wrapped(p.wrapping_mul(step).wrapping_add(start));
    }
}

// Put a word of a command at place p, where there is one and its type can hold the word.
pub fn poke<T: Value>(values: &mut [T], p: usize, word: i32) -> Result<(), Unknown>
    ensures { OnErr result (values.new ≡ values.old) }
{
    let value = T::try_from(word)?;
    if values.len() <= p {
        return Err(Unknown);
    }
    values[p] = value;
    Ok(())
}

// n values filled, where there is room for them.
pub fn filled<T: Value>(n: usize, step: usize, start: usize) -> Result<Part<T>, Unknown> {
    if n > ROOM {
        return Err(Unknown);
    }
    let mut part = ArrayVec::from([T::wrapped(0); ROOM]);
    part.truncate(n);
    fill(part.as_mut_slice(), step, start);
    Ok(part)
}

// One value more, where there is room and its type can hold the word.
pub fn append<T: Value>(part: &mut Part<T>, word: i32) -> Result<(), Unknown> {
    part.try_push(T::try_from(word)?).map_err(|_| Unknown)
}
