// Runs every row of the bench sheet through the public functions, and prints a line for each call:
// the row's number, the call, and what it left. Bytes are in hex, no bytes are `-`. The handle and
// the row's number are arguments: a struct of both would be made anew for each row, and taken apart in
// each line.
#![tactic(auto)]

mod print;
mod readers;
mod traces;
mod writers;

use std::io;

fn main(rt: HostRuntime) -> io::Result<()> {
    writers::rows(&rt)?;
    readers::rows(&rt)?;
    traces::rows(&rt)
}
