// The laws of write oracles, and the smallest sets that keep them.
#![tactic(auto)]

ghost use Rattle.oracle_laws.specs.Sets.{BroadLawful};
ghost use Rattle.oracle_laws.specs.Smallest.{SmallestLawful, SmallestLeast};

// Every place for every block: these sets keep the laws.
#[tactic(auto, using(crate::proofs::Broad::broad_lawful_lem))]
pub fn broad_lawful()
    ensures { BroadLawful }
{}

// The sets of what may be written keep the laws.
#[tactic(auto, using(crate::proofs::Smallest::smallest_lawful_lem))]
pub fn smallest_lawful()
    ensures { SmallestLawful }
{}

// Whatever keeps the laws names all that the smallest sets name.
pub fn smallest_least()
    ensures { SmallestLeast }
{}
