// Runs the station on inputs whose lines are known, and compares the lines that come with those that should come.
// A case on standard input is the input's bytes in hexadecimal and then the lines.
#![tactic(auto)]

use comparison::compare_all;
use std::io;
use std::io::Read;

mod cases;
mod comparison;
mod stop;

fn main(rt: HostRuntime) -> io::Result<()> {
    let mut input = Vec::new(rt.alloc());
    rt.stdin().read_to_end(&mut input)?;
    match compare_all(rt.alloc(), input.as_slice()) {
        Ok(count) => println!(rt; "{count} inputs are answered as they should be"),
        Err(stop) => println!(rt; "{stop}"),
    }
}
