// What a package holds, line by line, and why it is refused.
#![tactic(auto)]

ghost use Rattle.std.specs.Prelude.{◌≡◌, ◌++◌, IfOk, OnOk};
ghost use Rattle.layout.specs.Accepted.{bodies as bodies_of};
ghost use Rattle.layout.specs.Packages.{contents as contents_of};
ghost use Rattle.package.specs.Loads.{tree_of};
ghost use Rattle.package.specs.Declares.{contents_of as holding};
ghost use Rattle.listing.specs.Lines.{place_lines, body_lines, listed};

use bodies::list_procedures;
use lines::{Line, Sort};
use package::contents::Contents;
use package::held::Package;
use rows::{add_rows, list_sort};
use std::alloc::{AllocError, Global};

mod bodies;
pub mod lines;
pub mod refusals;
pub mod rows;
pub mod steps;
mod texts;

// Lists the places, the inputs first.
fn list_places(lines: &mut Vec<Line>, contents: &Contents) -> Result<(), AllocError>
    ensures { OnOk result (lines.new.items ≡ lines.old.items ++ place_lines (holding contents.now)) }
{
    lines.push(Line::Heading {
        sort: Sort::Places,
        count: contents.places(),
    })?;
    add_rows(
        lines,
        &contents.inputs,
        0,
        |number, input| Line::Input { number, input },
    )?;
    add_rows(
        lines,
        &contents.cells,
        contents.inputs.len(),
        |number, cell| Line::Cell { number, cell },
    )
}

// Lists the procedures with their bodies. The lines go in and come back, since the listing of bodies holds them.
fn list_bodies(mut lines: Vec<Line>, held: &Package) -> Result<Vec<Line>, AllocError>
    ensures { IfOk result (λ after. after.items ≡ lines.items ++ body_lines (contents_of (tree_of held.now)) (bodies_of (tree_of held.now))) }
{
    let contents = held.contents();
    lines.push(Line::Heading {
        sort: Sort::Procedures,
        count: contents.procedures.len(),
    })?;
    list_procedures(
        lines,
        held.bytes(),
        &contents.procedures,
        contents.inputs.len(),
    )
}

// Every declaration of a package by its sort, in order, and every command of its bodies.
pub fn listing(heap: Global, held: &Package) -> Result<Vec<Line>, AllocError>
    ensures { IfOk result (λ v. v.items ≡ listed (contents_of (tree_of held.now)) (bodies_of (tree_of held.now))) }
{
    let contents = held.contents();
    let mut lines = Vec::new(heap);
    list_sort(
        &mut lines,
        Sort::Parties,
        &contents.parties,
        |number, frame| Line::Party { number, frame },
    )?;
    list_places(&mut lines, contents)?;
    list_sort(
        &mut lines,
        Sort::Tables,
        &contents.tables,
        |number, table| Line::Table { number, table },
    )?;
    list_sort(
        &mut lines,
        Sort::Devices,
        &contents.needs,
        |number, need| Line::Device { number, need },
    )?;
    let mut lines = list_bodies(lines, held)?;
    list_sort(
        &mut lines,
        Sort::Entries,
        &contents.entries,
        |number, procedure| Line::Entry { number, procedure },
    )?;
    lines.push(Line::Cycle {
        steps: contents.steps,
    })?;
    Ok(lines)
}
