// The cases, read from their text.
ghost use Rattle.std.specs.Prelude.{◌≡◌, ◌<◌, IfSome, IfOk, IfErr};
ghost use Rattle.std.specs.List.{AllPass};
ghost use Rattle.hex.specs.Hex.{decode_of};
ghost use Rattle.package_cases.specs.Letters.{no_small_letter};

use super::answer::{Answer, Refused};
use super::stop::Stop;
use hex::FromHexError;
use std::alloc::Global;

// A package and what loading it has to answer.
#[derive(Drop)]
pub(crate) struct Case<'a> {
    pub(crate) name: &'a str,
    pub(crate) package: Vec<u8>,
    pub(crate) expected: Answer,
}

// The lines of a case, without the words that lead them.
#[derive(Clone, Copy)]
struct Lines<'a> {
    name: &'a str,
    package: &'a str,
    expected: &'a str,
}

// The three lines of a case.
fn lines_of<'a>(text: &'a str) -> Option<Lines<'a>> {
    let mut lines = text.lines();
    let name = lines.next()?.strip_prefix("case ")?;
    let package = lines.next()?.strip_prefix("in ")?;
    let expected = lines.next()?.strip_prefix("out ")?;
    match lines.next() {
        Some(_) => None,
        None => Some(Lines {
            name,
            package,
            expected,
        }),
    }
}

// The answer of these two numbers: 0 and a length, or a refusal's number and offset. A refusal has a number, so want of
// memory, which has none, is never expected.
fn expected_of(text: &str) -> Option<Answer>
    ensures { IfSome result (λ a. IfErr a.0 (λ e. 0 < e.number)) }
{
    let (number, figure) = text.split_once(" ")?;
    let number = number.parse::<u8>().ok()?;
    let figure = figure.parse::<usize>().ok()?;
    Some(Answer(match number {
        0 => Ok(figure),
        _ => Err(Refused {
            number,
            offset: figure,
        }),
    }))
}

// Whether a byte is no small letter, which hexadecimal could have and a case has not.
fn is_no_small_letter(byte: u8) -> bool
    ensures { result ≡ no_small_letter byte }
{
    !byte.is_ascii_lowercase()
}

// The bytes that a text writes, two digits to a byte, 0 to 9 and A to F. Where memory is wanting, the digits are looked at
// all the same: a text that writes no bytes has to be told, however long it is.
fn bytes_of<'a>(heap: Global, text: &str, unreadable: Stop<'a>) -> Result<Vec<u8>, Stop<'a>>
    ensures capital { IfOk result (λ _. AllPass no_small_letter text.now) }
    ensures value { IfOk result (λ bytes. decode_of text.now ≡ Ok bytes.items) }
{
    if !text.bytes().all(is_no_small_letter) {
        return Err(unreadable);
    }
    hex::decode(heap, text).map_err(|error| match error {
        FromHexError::OutOfMemory if text.bytes().all(|byte| byte.is_ascii_hexdigit()) => {
            Stop::NoMemory
        }
        _ => unreadable,
    })
}

// The case that a text writes.
pub(crate) fn case_of<'a>(heap: Global, text: &'a str) -> Result<Case<'a>, Stop<'a>> {
    let unreadable = Stop::Unreadable {
        line: text.lines().next().unwrap_or(text),
    };
    let lines = lines_of(text).ok_or(unreadable)?;
    let expected = expected_of(lines.expected).ok_or(unreadable)?;
    let package = bytes_of(heap, lines.package, unreadable)?;
    Ok(Case {
        name: lines.name,
        package,
        expected,
    })
}
