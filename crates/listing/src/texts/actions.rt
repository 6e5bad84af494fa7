// The text of commands.
use crate::lines::Action;
use commands::{Operation, Plain};
use std::fmt;

// What is shown where so many places are inputs, by which a place has its name.
#[derive(Clone, Copy)]
pub(crate) struct Named<T> {
    shown: T,
    inputs: usize,
}

impl Action {
    // The action, where so many places are inputs.
    pub(crate) fn named(self, inputs: usize) -> Named<Action> {
        Named {
            shown: self,
            inputs,
        }
    }
}

// A place, by its number in the row of places.
#[derive(Clone, Copy)]
struct Place(u8);

impl<T> Named<T> {
    // A place of the same row.
    fn place(&self, number: u8) -> Named<Place> {
        Named {
            shown: Place(number),
            inputs: self.inputs,
        }
    }
}

// Inputs come first in the row of places, then cells.
impl fmt::Display for Named<Place> {
    fn fmt<W: fmt::Write>(&self, f: &mut fmt::Formatter<W>) -> fmt::Result {
        let Place(number) = self.shown;
        if usize::from(number) < self.inputs {
            write!(f, "input {number}")
        } else {
            write!(f, "cell {number}")
        }
    }
}

// The sign between the places that an operation combines: a second text, since its `Display` is the name.
fn sign(operation: Operation) -> &'static str {
    match operation {
        Operation::Add => "+",
        Operation::Sub => "-",
        Operation::Less => "<",
        Operation::Same => "=",
        Operation::Bits => "&",
    }
}

// A plain command, with the names of what it touches.
impl fmt::Display for Named<Plain> {
    fn fmt<W: fmt::Write>(&self, f: &mut fmt::Formatter<W>) -> fmt::Result {
        match self.shown {
            Plain::Set { target, value } => write!(f, "SET {} to {value}", self.place(target)),
            Plain::Copy { target, source } => {
                write!(f, "COPY {} to {}", self.place(source), self.place(target))
            }
            Plain::Combine {
                operation,
                target,
                left,
                right,
            } => {
                let (one, other) = (self.place(left), self.place(right));
                let (sign, to) = (sign(operation), self.place(target));
                write!(f, "{operation} {one} {sign} {other} to {to}")
            }
            Plain::Pick {
                target,
                table,
                index,
            } => {
                let (to, at) = (self.place(target), self.place(index));
                write!(f, "PICK from table {table} at {at} to {to}")
            }
            Plain::Put {
                table,
                index,
                source,
            } => {
                let (at, from) = (self.place(index), self.place(source));
                write!(f, "PUT {from} into table {table} at {at}")
            }
            Plain::Drive { device, source } => {
                write!(f, "DRIVE device {device} with {}", self.place(source))
            }
        }
    }
}

// A command, its blocks apart.
impl fmt::Display for Named<Action> {
    fn fmt<W: fmt::Write>(&self, f: &mut fmt::Formatter<W>) -> fmt::Result {
        match self.shown {
            Action::Plain(shown) => {
                let plain = Named {
                    shown,
                    inputs: self.inputs,
                };
                write!(f, "{plain}")
            }
            Action::When { place } => write!(f, "WHEN {} is not 0", self.place(place)),
            Action::Loop { place, times } => {
                let asked = self.place(place);
                write!(f, "LOOP at most {times} times while {asked} is not 0")
            }
            Action::Grant { frame } => write!(f, "GRANT {frame:016x}"),
            Action::Call { procedure } => write!(f, "CALL procedure {procedure}"),
            Action::Try { frame, place } => write!(f, "TRY {frame:016x} at {}", self.place(place)),
        }
    }
}
