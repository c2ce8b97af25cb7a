// The pieces of a line. The end of a line flushes the writer, so that a line that fits in a `Page` is one write.
use std::io::Write;
use std::{fmt, io};

// Numbers, each after a space.
#[derive(Clone, Copy)]
pub struct Spaced<T, const N: usize>(pub [T; N]);

impl<T: fmt::Display, const N: usize> fmt::Display for Spaced<T, N> {
    fn fmt<W: fmt::Write>(&self, f: &mut fmt::Formatter<W>) -> fmt::Result {
        for n in &self.0 {
            write!(f, " {n}")?;
        }
        Ok(())
    }
}

// The end of a line, flushed.
pub fn end<W: Write>(out: &mut W) -> io::Result<()> {
    writeln!(out)?;
    out.flush()
}

// The line of a command that is none.
pub fn unknown<W: Write>(out: &mut W) -> io::Result<()> {
    write!(out, "?")?;
    end(out)
}
