// replay: runs a script of calls, and prints each answer with a digest of every lent buffer. Standard input is commands of 80
// bytes (README.md has the format).
#![tactic(auto)]

mod state;

use script::page::Page;
use std::io;

// The room for cells.
const CELLS: usize = 1_048_576;

fn main(rt: HostRuntime) -> io::Result<()> {
    let steps = script::digest::steps();
    let mut cells = [0; CELLS];
    let mut page = Page::new(rt.stdout());
    state::run(&mut rt.stdin(), &mut page, &steps, &mut cells)
}
