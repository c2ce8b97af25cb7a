// script: the library of the test programs. Commands and their numbers, what is lent to a call and the lists of an upload, their
// fills, pokes and digest, and the pieces of a line. Safety is proved, and that the cells after an error of `bufs` or `poke`, and
// the values after one of `part::poke`, are as they were.
#![tactic(auto)]

pub mod buffers;
pub mod command;
pub mod digest;
pub mod page;
pub mod part;
pub mod say;
