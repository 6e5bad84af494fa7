// The steps of an inspection, told as they are taken.
ghost use Rattle.std.specs.Prelude.{◌≡◌, IfOk};
ghost use Rattle.listing.specs.Steps.{told_steps};
ghost use Rattle.package.specs.Declares.{contents_of};

use super::lines::Sort;
use super::rows::add_rows;
use layout::Procedure;
use package::contents::Contents;
use package::refusal::Refusal;
use std::alloc::{AllocError, Global};
use std::fmt;

// One step: reading starts; so many bytes were read; so much is declared; a procedure was checked; the package is
// accepted, or refused.
#[derive(Clone, Copy, Debug, PartialEq, Eq)]
pub enum Step {
    Reading,
    Read { bytes: usize },
    Declared { sort: Sort, count: usize },
    Places { inputs: usize, cells: usize },
    Checked { number: usize, procedure: Procedure },
    Accepted { blocks: usize },
    Refused(Refusal),
}

impl fmt::Display for Step {
    fn fmt<W: fmt::Write>(&self, f: &mut fmt::Formatter<W>) -> fmt::Result {
        match *self {
            Step::Reading => f.write_str("reading a package from standard input"),
            Step::Read { bytes } => write!(f, "read {bytes} bytes"),
            Step::Declared { sort, count } => write!(f, "{sort}: {count}"),
            Step::Places { inputs, cells } => write!(f, "inputs: {inputs}, cells: {cells}"),
            Step::Checked { number, procedure } => {
                let (height, steps) = (procedure.height, procedure.steps);
                write!(
                    f,
                    "procedure {number} checked: height {height}, at most {steps} steps"
                )
            }
            Step::Accepted { blocks } => write!(f, "accepted, with {blocks} blocks"),
            Step::Refused(refusal) => {
                let (number, offset) = (refusal.number(), refusal.offset());
                write!(f, "refused: {number} at offset {offset}")
            }
        }
    }
}

// The steps of loading a package, once it is accepted: what is declared, sort by sort, and each procedure.
pub fn steps(heap: Global, contents: &Contents) -> Result<Vec<Step>, AllocError>
    ensures { IfOk result (λ v. v.items ≡ told_steps (contents_of contents.now)) }
{
    let mut told = vec![in heap;
        Step::Declared {
            sort: Sort::Parties,
            count: contents.parties.len(),
        },
        Step::Places {
            inputs: contents.inputs.len(),
            cells: contents.cells.len(),
        },
        Step::Declared {
            sort: Sort::Tables,
            count: contents.tables.len(),
        },
        Step::Declared {
            sort: Sort::Devices,
            count: contents.needs.len(),
        },
    ]?;
    add_rows(
        &mut told,
        &contents.procedures,
        0,
        |number, procedure| Step::Checked { number, procedure },
    )?;
    told.push(Step::Declared {
        sort: Sort::Entries,
        count: contents.entries.len(),
    })?;
    told.push(Step::Accepted {
        blocks: contents.blocks.len(),
    })?;
    Ok(told)
}
