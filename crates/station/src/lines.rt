// The lines that the station writes.
ghost use Rattle.std.specs.Prelude.{◌≡◌, Some};
ghost use Rattle.rules.specs.Calls.{refusal_number};
ghost use Rattle.station.specs.Text.{answer_text, line_text};

use package::refusal::Fault;
use rules::{Answer, Refusal};
use std::fmt;

// Why the station stops, by its number.
#[derive(Clone, Copy, Debug, PartialEq, Eq)]
pub enum Stop {
    // More than 32,768 bytes.
    TooLong = 1,
    // The bytes end in the header, in the package or inside a call.
    EndsEarly = 2,
    // A byte that names no frame kind, no write oracle or no call.
    WrongByte = 3,
}

// What a line says: the package is accepted with its length, or refused with its first fault and the fault's offset; what
// a call answers; or why the station stops.
#[derive(Clone, Copy, Debug, PartialEq, Eq)]
pub enum Line {
    Accepted { length: usize },
    Refused { fault: Fault, offset: usize },
    Answered(Answer),
    Stopped(Stop),
}

// The number of a refusal.
fn number_of(refusal: Refusal) -> u8
    ensures { result ≡ refusal_number refusal }
{
    match refusal {
        Refusal::NoSuchParty => 20,
        Refusal::NoSuchPlace => 21,
        Refusal::NotItsInput => 22,
        Refusal::NoSuchRight => 31,
        Refusal::NotTrusted => 32,
        Refusal::NoSuchDevice => 33,
    }
}

// An answer, as its line tells it.
#[derive(Clone, Copy)]
struct Told(Answer);

impl fmt::Display for Told {
    ghost output = { λ t. Some (answer_text t.0) };

    fn fmt<W: fmt::Write>(&self, f: &mut fmt::Formatter<W>) -> fmt::Result {
        match self.0 {
            Answer::Post(Ok(())) => write!(f, "post 0"),
            Answer::Post(Err(refusal)) => write!(f, "post {}", number_of(refusal)),
            Answer::Cycle((steps, refused)) => write!(f, "cycle {steps} {refused}"),
            Answer::Read(Ok((value, frame))) => write!(f, "read 0 {value} {frame}"),
            Answer::Read(Err(refusal)) => write!(f, "read {}", number_of(refusal)),
            Answer::Show(Ok((command, count))) => write!(f, "show 0 {command} {count}"),
            Answer::Show(Err(refusal)) => write!(f, "show {}", number_of(refusal)),
        }
    }
}

impl fmt::Display for Line {
    ghost output = { λ l. Some (line_text l) };

    fn fmt<W: fmt::Write>(&self, f: &mut fmt::Formatter<W>) -> fmt::Result {
        match *self {
            Line::Accepted { length } => write!(f, "load 0 {length}"),
            Line::Refused { fault, offset } => write!(f, "load {} {offset}", fault as u8),
            Line::Answered(answer) => write!(f, "{}", Told(answer)),
            Line::Stopped(stop) => write!(f, "stop {}", stop as u8),
        }
    }
}
