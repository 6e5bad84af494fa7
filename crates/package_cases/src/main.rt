// Loads packages, right and wrong, and compares what comes with what should come.
// A case on standard input is its name, the package's bytes in hexadecimal, and the answer that loading has to give.
#![tactic(auto)]

use comparison::compare_all;
use std::io;
use std::io::Read;

mod answer;
mod cases;
mod comparison;
mod stop;

fn main(rt: HostRuntime) -> io::Result<()> {
    let mut input = Vec::new(rt.alloc());
    rt.stdin().read_to_end(&mut input)?;
    match compare_all(rt.alloc(), input.as_slice()) {
        Ok(count) => println!(rt; "{count} packages are loaded or refused as they should be"),
        Err(stop) => println!(rt; "{stop}"),
    }
}
