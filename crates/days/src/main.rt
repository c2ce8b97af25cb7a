// days: what dayline prints of each day of a list. A day is its length in bytes, four bytes low first, and its records.
#![tactic(auto)]

use std::io;
use std::io::{Read, Write};
use text::Text;

// The bytes of a day at the most.
const DAY_MOST: usize = 65552;

// Print the number of a day and its text.
fn print_day<W: Write>(output: &mut W, number: u64, file: &[u8]) -> io::Result<()> {
    let mut head = [0u8; 32];
    let mut text = Text {
        out: &mut head,
        at: 0,
    };
    text.labelled(b"day ", number);
    text.byte(b'\n');
    let end = text.at;
    output.write_all(&head[..end])?;
    let mut out = [0u8; day::TEXT_ROOM];
    let k = day::report(file, &mut out);
    output.write_all(&out[..k])
}

// Read a day and print its text, or the line of one that is cut short or too long; whether there may be more.
fn turn<R: Read, W: Write>(input: &mut R, output: &mut W, number: u64) -> io::Result<bool> {
    let mut bytes = [0u8; 4];
    let got = input::read_full(input, &mut bytes);
    if got == 0 {
        return Ok(false);
    }
    let n = u32::from_le_bytes(bytes) as usize;
    let mut day = [0u8; DAY_MOST];
    if got < bytes.len() || n > DAY_MOST || input::read_full(input, &mut day[..n]) < n {
        output.write_all(b"?\n")?;
        return Ok(false);
    }
    print_day(output, number, &day[..n])?;
    Ok(true)
}

// A proved loop has to end, so it counts up to a number that no list reaches.
fn main(rt: HostRuntime) -> io::Result<()> {
    let mut input = rt.stdin();
    let mut output = rt.stdout();
    for number in 0..u64::MAX {
        if !turn(&mut input, &mut output, number)? {
            break;
        }
    }
    Ok(())
}
