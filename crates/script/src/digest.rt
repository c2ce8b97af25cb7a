// CRC-32 of buffers one after the other.
use crate::part::Value;
use std::array;

// The polynomial.
const POLYNOMIAL: u32 = 0xEDB88320;

// What one bit does to a CRC.
fn shifted(c: u32) -> u32 {
    if c & 1 == 1 {
        (c >> 1) ^ POLYNOMIAL
    } else {
        c >> 1
    }
}

// What one byte does to it, for each byte.
pub fn steps() -> [u32; 256] {
    array::from_fn(|b| (0..8).fold(b as u32, |c, _| shifted(c)))
}

// The CRC of the bytes so far, by the steps.
#[derive(Clone, Copy)]
pub struct Crc<'a> {
    steps: &'a [u32; 256],
    sum: u32,
}

impl<'a> Crc<'a> {
    // Of nothing.
    pub fn new(steps: &'a [u32; 256]) -> Crc<'a> {
        Crc {
            steps,
            sum: u32::MAX,
        }
    }

    // With bytes more.
    pub fn bytes(self, bytes: &[u8]) -> Crc<'a> {
        let steps = self.steps;
        let sum = bytes.iter().fold(
            self.sum,
            |c, b| (c >> 8) ^ steps[((c ^ u32::from(*b)) & 0xFF) as usize],
        );
        Crc { steps, sum }
    }

    // With values more.
    pub fn values<T: Value>(self, values: &[T]) -> Crc<'a> {
        values.iter().fold(self, |crc, value| value.digested(crc))
    }

    // After the last byte.
    pub fn ended(self) -> u32 {
        !self.sum
    }
}
