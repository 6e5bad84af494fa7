// Drives a controller by the bytes of standard input, and prints a line for what each of them asks.
#![tactic(auto)]

use station::answer_input;
use std::io;
use std::io::Read;

// One byte more than any input has: what is longer is refused as such, and not cut.
const MOST: u64 = 32_769;

fn main(rt: HostRuntime) -> io::Result<()> {
    let mut input = Vec::new(rt.alloc());
    rt.stdin().take(MOST).read_to_end(&mut input)?;
    for line in &answer_input(rt.alloc(), &input)? {
        println!(rt; "{line}")?;
    }
    Ok(())
}
