// The example's parties, places and rules, in words.
use rules::{Cause, Refusal};

pub const AIRPORT: u8 = 0;

pub const AIRLINE: u8 = 1;

pub const HANDLER: u8 = 2;

pub const PLAN: u8 = 0;

pub const CHUTE: u8 = 1;

pub const OTHER_CHUTE: u8 = 2;

pub const HOLD: u8 = 3;

pub const DIVERTER: u8 = 0;

// Who a party is.
pub fn party(number: u8) -> &'static str {
    match number {
        AIRPORT => "the airport",
        AIRLINE => "the airline",
        HANDLER => "the handler",
        _ => "a party that the example lacks",
    }
}

// What an input says.
pub fn input(place: u8) -> &'static str {
    match place {
        PLAN => "the airport's plan",
        CHUTE => "the airline's chute",
        OTHER_CHUTE => "the handler's chute",
        HOLD => "the handler's hold",
        _ => "a place that the example lacks",
    }
}

// What a procedure does.
pub fn rule(procedure: u8) -> &'static str {
    match procedure {
        0 => "the airline's rule that copies the handler's chute",
        1 => "the airline's rule that copies its own chute",
        2 => "the airline's rule that asks the handler first",
        3 => "the airport's rule that goes by its plan",
        _ => "a rule that the example lacks",
    }
}

// What became of a post.
pub fn posted(answer: Result<(), Refusal>) -> &'static str {
    match answer {
        Ok(()) => "accepted",
        Err(Refusal::NotItsInput) => "refused, the place is not its input",
        Err(Refusal::NoSuchParty) => "refused, there is no such party",
        Err(_) => "refused, there is no such place",
    }
}

// Why a drive is refused.
pub fn cause(cause: Cause) -> &'static str {
    match cause {
        Cause::Rights => "the rights in force lack",
        Cause::Information => "what it rests on lacks",
    }
}
