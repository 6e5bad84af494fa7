// The answers that loading a package gives.
ghost use Rattle.std.specs.Prelude.{◌≡◌, IfOk, length};

use package::load;
use package::refusal::Refusal;
use std::alloc::Global;
use std::fmt;

// A refusal by its number and its offset. A case may expect a number that no fault has.
#[derive(Clone, Copy, PartialEq, Eq)]
pub(crate) struct Refused {
    pub(crate) number: u8,
    pub(crate) offset: usize,
}

impl From<Refusal> for Refused {
    fn from(refusal: Refusal) -> Refused {
        Refused {
            number: refusal.number(),
            offset: refusal.offset(),
        }
    }
}

// The length of the package that is held where it is accepted, or why it is refused.
#[derive(Clone, Copy, PartialEq, Eq)]
pub(crate) struct Answer(pub(crate) Result<usize, Refused>);

impl fmt::Display for Answer {
    fn fmt<W: fmt::Write>(&self, f: &mut fmt::Formatter<W>) -> fmt::Result {
        match self.0 {
            Ok(length) => write!(f, "accepted with {length} bytes"),
            Err(Refused { number, offset }) => write!(f, "refusal {number} at {offset}"),
        }
    }
}

// What loading these bytes answers: an accepted package is held whole.
pub(crate) fn answer_to(heap: Global, bytes: &[u8]) -> Answer
    ensures { IfOk result.0 (λ n. n ≡ length bytes.now) }
{
    Answer(
        load(heap, bytes)
            .map(|package| package.bytes().len())
            .map_err(Refused::from),
    )
}
