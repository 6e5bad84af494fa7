// What holds of the lines of every input.
ghost use Rattle.station.specs.Laws.{AcceptedInOrder, RefusedAlone};

// Where the package is accepted, the lines are its length, the answers of the calls in order, and at most one stop.
#[tactic(auto, using(crate::proofs::Orders::accepted_in_order_lem))]
pub fn accepted_in_order()
    ensures { AcceptedInOrder }
{}

// Where the package is refused, its refusal stands alone.
#[tactic(auto, using(crate::proofs::Orders::refused_alone_lem))]
pub fn refused_alone()
    ensures { RefusedAlone }
{}
