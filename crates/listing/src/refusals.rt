// Why a package is refused, in words.
ghost use Rattle.std.specs.Prelude.{◌≡◌};
ghost use Rattle.listing.specs.Causes.{cause_text, fault_text};

use package::refusal::{Fault, Refusal};

// What is wrong with a package, in one sentence.
fn in_words(fault: Fault) -> &'static str
    ensures { result.now ≡ fault_text fault }
{
    match fault {
        Fault::TooLong => "the package has more than 8192 bytes",
        Fault::EndsEarly => "the bytes end inside a declaration or before FINISH",
        Fault::NoSuchByte => "no declaration, or no command, starts with this byte",
        Fault::ByteFalls => "this declaration's sort comes before that of the one ahead of it",
        Fault::OverLimit => "this is one more than a limit allows",
        Fault::NotDeclared =>
            "a number is not declared, a table's place is no cell, or a called procedure is not lower",
        Fault::InputAsTarget => "a command gives an input a value",
        Fault::PastEnd =>
            "an operand or a block runs past its block's end, a loop has no turns, or a table no cells",
        Fault::TooDeep => "blocks are nested too deep, or the procedure is too high",
        Fault::TooManySteps => "a body, or the cycle, takes more than 1000000 steps",
        Fault::AfterFinish => "bytes follow FINISH",
    }
}

// The cause of a refusal, in one sentence: a text that outlives the refusal, where `Display` would only write it.
pub fn cause(refusal: Refusal) -> &'static str
    ensures { result.now ≡ cause_text refusal }
{
    match refusal {
        Refusal::Fault(fault, _) => in_words(fault),
        Refusal::Memory => "there is not enough memory",
    }
}
