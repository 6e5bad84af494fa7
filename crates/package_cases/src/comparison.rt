// The comparison of each case's answer with the one that loading gives.
use super::answer::answer_to;
use super::cases::{Case, case_of};
use super::stop::Stop;
use std::alloc::Global;
use std::str::from_utf8;

// Compares one case.
fn compare<'a>(heap: Global, case: &Case<'a>) -> Result<(), Stop<'a>> {
    let came = answer_to(heap, case.package.as_slice());
    if came == case.expected {
        return Ok(());
    }
    Err(Stop::Differs {
        name: case.name,
        expected: case.expected,
        came,
    })
}

// Compares every case of these bytes up to the first that differs, and answers how many there are.
pub(crate) fn compare_all<'a>(heap: Global, input: &'a [u8]) -> Result<usize, Stop<'a>> {
    let text = from_utf8(input).map_err(|_| Stop::NoText)?;
    for part in text.split_terminator("\n\n") {
        let case = case_of(heap, part)?;
        compare(heap, &case)?;
    }
    Ok(text.split_terminator("\n\n").count())
}
