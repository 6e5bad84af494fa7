// Rule packages, loaded or refused.
#![tactic(auto)]

ghost use Rattle.std.specs.Prelude.{◌≡◌, ℕ, ◌+◌, ◌≤◌, length};
ghost use Rattle.package.specs.Loads.{Loads, Exactly, Keeping, ReadsContents};

use contents::Contents;
use declarations::take;
use held::Package;
use loading::declare;
use refusal::{Fault, Refusal};
use std::alloc::Global;

mod bodies;
pub mod contents;
mod declarations;
pub mod held;
mod loading;
pub mod parts;
pub mod refusal;

// What the bytes of a package declare, or the first fault.
fn read(heap: Global, bytes: &[u8]) -> Result<Contents, Refusal>
    requires { length bytes.now ≤ 8192 }
    ensures { ReadsContents bytes.now result }
{
    let mut contents = Contents::new(heap);
    let mut rest = bytes;
    // Before the first declaration, a byte below every leading one.
    let mut latest = 0u8;
    // The loop moves along the bytes: an iterator of declarations would carry the offset and the latest byte, and what
    // each is checked against would still be here.
    loop {
        let at = bytes.len() - rest.len();
        let Some((declaration, after)) = take(rest, at, latest)? else {
            return Ok(contents);
        };
        declare(&mut contents, declaration, at)?;
        latest = rest[0];
        rest = after;
    }
}

// No package has more bytes.
const LONGEST: usize = 8192;

// Loads any bytes whatever: the package that they are, or why they are refused and at which offset.
pub fn load(heap: Global, bytes: &[u8]) -> Result<Package, Refusal>
    ensures reads { Loads bytes.now result }
    ensures exactly { Exactly bytes.now result }
    ensures lawful { Keeping result }
{
    if bytes.len() > LONGEST {
        return Err(Refusal::Fault(Fault::TooLong, 0));
    }
    let contents = read(heap, bytes)?;
    let bytes = Vec::from_slice(heap, bytes)?;
    Ok(Package { bytes, contents })
}
