// What is told of a package.
use frames::FrameKind;
use frames::levels::Levels;
use frames::rights::Rights;
use listing::listing;
use listing::refusals::cause;
use listing::steps::{Step, steps};
use oracles::WriteOracle;
use oracles::walking::Walking;
use package::contents::Contents;
use package::held::Package;
use package::refusal::Refusal;
use reach::kinds::KindName;
use reach::{places_of, rights_of};
use wording::excerpts::Excerpt;
use wording::reach::{HeldText, Holder};

fn tell_rights<K: FrameKind>(
    rt: &(impl Print + AllocGlobal),
    holder: Holder,
    codes: &[u64],
) -> anyhow::Result<()> {
    for (number, code) in codes.iter().enumerate() {
        let rights = rights_of::<K>(rt.alloc(), *code)?;
        let text = HeldText {
            holder,
            number,
            numbers: &rights,
        };
        println!(rt; "{text}")?;
    }
    Ok(())
}

fn tell_holders<K: FrameKind>(
    rt: &(impl Print + AllocGlobal),
    contents: &Contents,
) -> anyhow::Result<()> {
    tell_rights::<K>(rt, Holder::Party, &contents.parties)?;
    tell_rights::<K>(rt, Holder::Device, &contents.needs)
}

fn tell_places(rt: &(impl Print + AllocGlobal), held: &Package) -> anyhow::Result<()> {
    let oracle = Walking::prepare(rt.alloc(), held)?;
    println!(rt; "places that each block may write")?;
    for number in 0..held.contents().blocks.len() {
        let places = places_of(rt.alloc(), &oracle, number)?;
        let text = HeldText {
            holder: Holder::Block,
            number,
            numbers: &places,
        };
        println!(rt; "{text}")?;
    }
    Ok(())
}

// Tells of an accepted package the steps of loading it, what it holds, the rights by this kind, and the places that each
// block may write.
pub(crate) fn tell_accepted(
    rt: &(impl Print + AllocGlobal),
    held: &Package,
    kind: KindName,
) -> anyhow::Result<()> {
    for step in steps(rt.alloc(), held.contents())?.iter() {
        println!(rt; "{step}")?;
    }
    println!(rt; "")?;
    for line in listing(rt.alloc(), held)?.iter() {
        println!(rt; "{line}")?;
    }
    println!(rt; "rights held, by the {kind} kind")?;
    match kind {
        KindName::Rights => tell_holders::<Rights>(rt, held.contents())?,
        KindName::Levels => tell_holders::<Levels>(rt, held.contents())?,
    }
    tell_places(rt, held)
}

// Tells why these bytes are refused, and where.
pub(crate) fn tell_refused(rt: &impl Print, bytes: &[u8], refusal: Refusal) -> anyhow::Result<()> {
    let step = Step::Refused(refusal);
    let why = cause(refusal);
    let around = Excerpt {
        bytes,
        offset: refusal.offset(),
    };
    println!(rt; "{step}")?;
    println!(rt; "  {why}")?;
    println!(rt; "  {around}")?;
    Ok(())
}
