// dayline: a day's records from standard input, its levels and its pauses to standard output.
#![tactic(auto)]

use std::io;
use std::io::Write;

fn main(rt: HostRuntime) -> io::Result<()> {
    let mut file = [0u8; day::FILE_ROOM];
    let n = input::read_full(&mut rt.stdin(), &mut file);
    let mut out = [0u8; day::TEXT_ROOM];
    let k = day::report(&file[..n], &mut out);
    rt.stdout().write_all(&out[..k])
}
