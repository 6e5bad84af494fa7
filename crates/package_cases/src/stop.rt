// Why a comparison stops before its end.
use super::answer::Answer;
use std::fmt;

#[derive(Clone, Copy)]
pub(crate) enum Stop<'a> {
    Differs {
        name: &'a str,
        expected: Answer,
        came: Answer,
    },
    Unreadable {
        line: &'a str,
    },
    NoText,
    NoMemory,
}

impl fmt::Display for Stop<'_> {
    fn fmt<W: fmt::Write>(&self, f: &mut fmt::Formatter<W>) -> fmt::Result {
        match self {
            Stop::Differs {
                name,
                expected,
                came,
            } => write!(f, "{name}: expected {expected}, came {came}"),
            Stop::Unreadable { line } => write!(f, "not readable as a case: {line}"),
            Stop::NoText => write!(f, "the cases are no text"),
            Stop::NoMemory => write!(f, "not enough memory for the cases"),
        }
    }
}
