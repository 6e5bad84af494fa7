// What holds of every run of the written rules.
ghost use Rattle.rules.specs.Agreement.{Agreement};
ghost use Rattle.rules.specs.AtHand.{AtHandLawful};
ghost use Rattle.rules.specs.Bounds.{EntriesBounded, CycleBounded};
ghost use Rattle.rules.specs.Cases.{Cases};
ghost use Rattle.rules.specs.Leaves.{AllAsItWas, AlwaysWhole, InputsArePosted, RefusedUnmoved, TrailStays, TrailTells};

// What a right sees of a controller tells nothing of the posts of parties without it.
#[tactic(auto, using(crate::proofs::Agrees::agreement_lem))]
pub fn agreement()
    ensures { Agreement }
{}

// Both frame kinds, with both write oracles, keep the laws that agreement asks for.
#[tactic(auto, using(crate::proofs::AtHand::at_hand_lawful_lem))]
pub fn at_hand_lawful()
    ensures { AtHandLawful }
{}

// Entries of an accepted package, run from any state, take no more steps than their bodies do at most.
#[tactic(auto, using(crate::proofs::Steps::entries_bounded_lem))]
pub fn entries_bounded()
    ensures { EntriesBounded }
{}

// A cycle takes no more steps than loading found, at most 1,000,000, and refuses no more drives than it takes steps.
#[tactic(auto, using(crate::proofs::Steps::cycle_bounded_lem))]
pub fn cycle_bounded()
    ensures { CycleBounded }
{}

// A refused post, a read and a show leave all as it was.
#[tactic(auto, using(crate::proofs::Leaving::all_as_it_was_lem))]
pub fn all_as_it_was()
    ensures { AllAsItWas }
{}

// Whatever is called, there are as many places and devices as were declared.
pub fn always_whole()
    ensures { AlwaysWhole }
{}

// An input has the value that its party posted last, or else the declared one.
#[tactic(auto, using(crate::proofs::Leaving::inputs_are_posted_lem))]
pub fn inputs_are_posted()
    ensures { InputsArePosted }
{}

// A refused drive is counted, and changes no place and no device.
#[tactic(auto, using(crate::proofs::Leaving::refused_unmoved_lem))]
pub fn refused_unmoved()
    ensures { RefusedUnmoved }
{}

// What is in the trail stays there until the next cycle: it is the first refused drive.
#[tactic(auto, using(crate::proofs::Leaving::trail_stays_lem))]
pub fn trail_stays()
    ensures { TrailStays }
{}

// There is a trail exactly where the latest cycle refused a drive.
#[tactic(auto, using(crate::proofs::Leaving::trail_tells_lem))]
pub fn trail_tells()
    ensures { TrailTells }
{}

// Eight small runs answer what was worked out by hand.
pub fn worked_cases()
    ensures { Cases }
{}
