// The text of lines.
use super::actions::Named;
use crate::lines::{Action, Line, Role, Sort};
use layout::{Cell, Input, Procedure, Table};
use std::fmt;

impl fmt::Display for Sort {
    fn fmt<W: fmt::Write>(&self, f: &mut fmt::Formatter<W>) -> fmt::Result {
        f.write_str(match self {
            Sort::Parties => "parties",
            Sort::Places => "places",
            Sort::Tables => "tables",
            Sort::Devices => "devices",
            Sort::Procedures => "procedures",
            Sort::Entries => "entries",
        })
    }
}

impl fmt::Display for Role {
    fn fmt<W: fmt::Write>(&self, f: &mut fmt::Formatter<W>) -> fmt::Result {
        f.write_str(match self {
            Role::Body => "the body",
            Role::First => "if so",
            Role::Second => "if not",
            Role::Turn => "each turn",
            Role::Granted => "under the grant",
        })
    }
}

// Two spaces for each level.
#[derive(Clone, Copy)]
struct Indent(usize);

impl fmt::Display for Indent {
    fn fmt<W: fmt::Write>(&self, f: &mut fmt::Formatter<W>) -> fmt::Result {
        for _ in 0..self.0 {
            f.write_str("  ")?;
        }
        Ok(())
    }
}

fn write_input<W: fmt::Write>(
    f: &mut fmt::Formatter<W>,
    number: usize,
    input: Input,
) -> fmt::Result {
    let Input { party, value } = input;
    write!(
        f,
        "  input     {number:>3}  party {party:>3}  value {value:>10}"
    )
}

fn write_cell<W: fmt::Write>(f: &mut fmt::Formatter<W>, number: usize, cell: Cell) -> fmt::Result {
    let Cell { value, frame } = cell;
    write!(
        f,
        "  cell      {number:>3}             value {value:>10}  frame {frame:016x}"
    )
}

fn write_table<W: fmt::Write>(
    f: &mut fmt::Formatter<W>,
    number: usize,
    table: Table,
) -> fmt::Result {
    let Table { first, length } = table;
    write!(
        f,
        "  table     {number:>3}  from cell {first:>3}  length {length:>3}"
    )
}

fn write_procedure<W: fmt::Write>(
    f: &mut fmt::Formatter<W>,
    number: usize,
    procedure: Procedure,
) -> fmt::Result {
    let Procedure {
        party,
        start,
        length,
        height,
        steps,
        ..
    } = procedure;
    write!(
        f,
        "  procedure {number:>3}  party {party:>3}  body at {start:>4}, {length:>4} bytes"
    )?;
    write!(f, "  height {height}  at most {steps} steps")
}

fn write_block<W: fmt::Write>(
    f: &mut fmt::Formatter<W>,
    number: usize,
    depth: usize,
    role: Role,
) -> fmt::Result {
    let indent = Indent(depth);
    write!(f, "          {indent}block {number}, {role}")
}

fn write_command<W: fmt::Write>(
    f: &mut fmt::Formatter<W>,
    offset: usize,
    depth: usize,
    action: Named<Action>,
) -> fmt::Result {
    let indent = Indent(depth);
    write!(f, "    {offset:>4}    {indent}{action}")
}

impl fmt::Display for Line {
    fn fmt<W: fmt::Write>(&self, f: &mut fmt::Formatter<W>) -> fmt::Result {
        match *self {
            Line::Heading { sort, count } => write!(f, "{sort}: {count}"),
            Line::Party { number, frame } => write!(
                f,
                "  party     {number:>3}  frame {frame:016x}"
            ),
            Line::Input { number, input } => write_input(f, number, input),
            Line::Cell { number, cell } => write_cell(f, number, cell),
            Line::Table { number, table } => write_table(f, number, table),
            Line::Device { number, need } => write!(
                f,
                "  device    {number:>3}  need  {need:016x}"
            ),
            Line::Procedure { number, procedure } => write_procedure(f, number, procedure),
            Line::Block {
                number,
                depth,
                role,
            } => write_block(f, number, depth, role),
            Line::Command {
                offset,
                depth,
                inputs,
                action,
            } => write_command(f, offset, depth, action.named(inputs)),
            Line::Entry { number, procedure } => write!(
                f,
                "  entry     {number:>3}  procedure {procedure:>3}"
            ),
            Line::Cycle { steps } => write!(f, "a cycle takes at most {steps} of 1000000 steps"),
        }
    }
}
