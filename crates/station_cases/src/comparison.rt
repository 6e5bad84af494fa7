// The comparison of the lines of each case with those that the station answers.
use super::cases::{Case, case_of};
use super::stop::Stop;
use station::answer_input;
use station::lines::Line;
use std::alloc::{AllocError, Global};
use std::str::from_utf8;

// The text of these lines, each behind the word that leads it in a case.
fn text_of(heap: Global, lines: &[Line]) -> Result<String, AllocError> {
    let mut text = String::new(heap);
    for line in lines {
        if !text.is_empty() {
            text.push_str("\n")?;
        }
        let told = format!(in heap; "out {line}")?;
        text.push_str(&told)?;
    }
    Ok(text)
}

// The text of the lines that the station answers.
fn answered(heap: Global, input: &[u8]) -> Result<String, AllocError> {
    let lines = answer_input(heap, input)?;
    text_of(heap, &lines)
}

// Compares one case.
fn compare<'a>(heap: Global, case: &Case<'a>) -> Result<(), Stop<'a>> {
    let came = answered(heap, &case.input).map_err(|_| Stop::NoMemory)?;
    if came.as_str() == case.expected {
        return Ok(());
    }
    Err(Stop::Differs {
        input: case.digits,
        expected: case.expected,
        came,
    })
}

// Compares every case of these bytes up to the first that differs, and answers how many there are.
pub(crate) fn compare_all<'a>(heap: Global, input: &'a [u8]) -> Result<usize, Stop<'a>> {
    let text = from_utf8(input).map_err(|_| Stop::NoText)?;
    for part in text.split_terminator("\n\n") {
        let case = case_of(heap, part)?;
        compare(heap, &case)?;
    }
    Ok(text.split_terminator("\n\n").count())
}
