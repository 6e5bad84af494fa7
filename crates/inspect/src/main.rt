// Reads a rule package from standard input and tells what it holds, or where and why it is refused.
// The argument names the frame kind by which rights are told: rights, which is also taken where none is given, or levels.
#![tactic(auto)]

use anyhow::{Context, bail};
use listing::steps::Step;
use package::load;
use reach::kinds::KindName;
use std::env;
use std::io::Read;
use std::rt::Env;
use telling::{tell_accepted, tell_refused};

mod telling;

// One byte more than any package has: what is longer is refused as such, and not cut.
const MOST: u64 = 8193;

// The frame kind that the argument names.
fn chosen_kind(rt: &(impl Env + AllocGlobal)) -> anyhow::Result<KindName> {
    let mut words = env::args(rt)?.skip(1);
    let kind = match words.next() {
        None => KindName::Rights,
        Some(word) => word
            .parse::<KindName>()
            .context("the argument is rights or levels")?,
    };
    match words.next() {
        None => Ok(kind),
        Some(_) => bail!("usage: inspect [rights|levels] < PACKAGE"),
    }
}

fn main(rt: HostRuntime) -> anyhow::Result<()> {
    let kind = chosen_kind(&rt)?;
    rt.println(Step::Reading)?;
    let mut bytes = Vec::new(rt.alloc());
    rt.stdin().take(MOST).read_to_end(&mut bytes)?;
    rt.println(Step::Read { bytes: bytes.len() })?;
    match load(rt.alloc(), &bytes) {
        Ok(held) => tell_accepted(&rt, &held, kind),
        Err(refusal) => tell_refused(&rt, &bytes, refusal),
    }
}
