// Runs an example hall of three parties, and tells what happens: each post, each drive that was accepted or refused, and
// who held the diverter back. The package comes from standard input: examples/diverter.package.
#![tactic(auto)]

use anyhow::bail;
use package::load;
use playing::{Hall, play};
use std::io::Read;

mod playing;
mod scenes;
mod words;

// One byte more than any package has.
const MOST: u64 = 8193;

fn main(rt: HostRuntime) -> anyhow::Result<()> {
    let mut bytes = Vec::new(rt.alloc());
    rt.stdin().take(MOST).read_to_end(&mut bytes)?;
    let Ok(held) = load(rt.alloc(), &bytes) else {
        bail!("the package is refused");
    };
    let Ok(mut hall) = Hall::new(rt.alloc()) else {
        bail!("memory is wanting");
    };
    if hall.load(rt.alloc(), &bytes).is_err() {
        bail!("memory is wanting");
    }
    play(&rt, held.contents(), &mut hall)
}
