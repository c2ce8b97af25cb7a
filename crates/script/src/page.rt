// Standard output with a buffer of its own, and so without a heap.
use arrayvec::ArrayVec;
use std::io;
use std::io::{Stdout, Write};

// The bytes that the buffer holds.
const PAGE_ROOM: usize = 4096;

// What is written stands in the buffer until it is flushed, or until there is no room for more.
#[derive(Drop)]
pub struct Page {
    to: Stdout,
    bytes: ArrayVec<u8, PAGE_ROOM>,
}

impl Page {
    // An empty page.
    pub fn new(to: Stdout) -> Page {
        Page {
            to,
            bytes: ArrayVec::new(),
        }
    }
}

impl Write for Page {
    // As much as there is room for.
    fn write(&mut self, buf: &[u8]) -> io::Result<usize> {
        if self.bytes.is_full() {
            self.flush()?;
        }
        self.bytes.write(buf)
    }

    // What a failed write leaves is not written again.
    fn flush(&mut self) -> io::Result<()> {
        let written = self.to.write_all(self.bytes.as_slice());
        self.bytes.clear();
        written
    }
}
