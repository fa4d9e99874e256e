// Runs every public function of `support` and writes what it answers. The expected output is made
// with Rust's own `str` functions by tools/vectors, which also writes the records that are read.
#![tactic(auto)]

mod calls;
mod code_points;
mod fold;
mod pairs;
mod records;
mod text;

use std::io;

fn main(rt: HostRuntime) -> io::Result<()> {
    code_points::report(&rt)?;
    records::report(&rt, rt.stdin())?;
    calls::report(&rt)?;
    pairs::report(&rt)
}
