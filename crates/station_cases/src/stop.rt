// Why a comparison stops before its end.
use std::fmt;

#[derive(Drop)]
pub(crate) enum Stop<'a> {
    Differs {
        input: &'a str,
        expected: &'a str,
        came: String,
    },
    Unreadable {
        line: &'a str,
    },
    NoText,
    NoMemory,
}

impl fmt::Display for Stop<'_> {
    fn fmt<W: fmt::Write>(&self, f: &mut fmt::Formatter<W>) -> fmt::Result {
        match self {
            Stop::Differs {
                input,
                expected,
                came,
            } => write!(f, "{input}: expected\n{expected}\ncame\n{came}"),
            Stop::Unreadable { line } => write!(f, "not readable as a case: {line}"),
            Stop::NoText => write!(f, "the cases are no text"),
            Stop::NoMemory => write!(f, "not enough memory for the cases"),
        }
    }
}
