// The cases, read from their text.
ghost use Rattle.std.specs.Prelude.{◌≡◌, IfOk};
ghost use Rattle.hex.specs.Hex.{decode_of};

use super::stop::Stop;
use hex::FromHexError;
use std::alloc::Global;

// A case: the digits of its input, the input, and the text of the lines that the station has to answer, each behind
// the word "out ".
#[derive(Drop)]
pub(crate) struct Case<'a> {
    pub(crate) digits: &'a str,
    pub(crate) input: Vec<u8>,
    pub(crate) expected: &'a str,
}

// The bytes that a text writes, two digits to a byte.
fn bytes_of<'a>(heap: Global, text: &'a str) -> Result<Vec<u8>, Stop<'a>>
    ensures { IfOk result (λ bytes. decode_of text.now ≡ Ok bytes.items) }
{
    hex::decode(heap, text).map_err(|error| match error {
        FromHexError::OutOfMemory => Stop::NoMemory,
        _ => Stop::Unreadable { line: text },
    })
}

// The case that a text writes.
pub(crate) fn case_of<'a>(heap: Global, text: &'a str) -> Result<Case<'a>, Stop<'a>> {
    let unreadable = Stop::Unreadable { line: text };
    let Some((first, expected)) = text.split_once("\n") else {
        return Err(unreadable);
    };
    let Some(digits) = first.strip_prefix("in ") else {
        return Err(unreadable);
    };
    Ok(Case {
        digits,
        input: bytes_of(heap, digits)?,
        expected,
    })
}
