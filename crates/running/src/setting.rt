// The places and devices of a new controller.
ghost use Rattle.std.specs.Prelude.{◌≡◌, IfOk};
ghost use Rattle.rules.specs.Calls.{new_input, new_cell, new as new_of};
ghost use Rattle.running.specs.States.{held_of};
ghost use Rattle.running.specs.Parts.{declared_by};
ghost use Rattle.running.specs.Entries.{program_of};

use crate::lookups::frame_of;
use crate::places::{Places, Work};
use layout::{Cell, Input};
use package::contents::Contents;
use package::held::Package;
use rules::{Device, Place};
use std::alloc::{AllocError, Global};

// An input as declared, with its party's frame.
fn new_input(contents: &Contents, input: Input) -> Place
    ensures { result ≡ new_input (declared_by contents.now) input }
{
    Place {
        value: input.value,
        frame: frame_of(&contents.parties, input.party),
    }
}

// A cell as declared.
fn new_cell(cell: Cell) -> Place
    ensures { result ≡ new_cell cell }
{
    Place {
        value: cell.value,
        frame: cell.frame,
    }
}

// The places of a new controller: its inputs, and its cells behind them.
fn new_places(heap: Global, contents: &Contents) -> Result<Vec<Place>, AllocError>
    ensures { IfOk result (λ v. v.items ≡ (new_of (declared_by contents.now)).places) }
{
    let inputs = contents
        .inputs
        .iter()
        .map(|input| new_input(contents, *input));
    let cells = contents.cells.iter().map(|cell| new_cell(*cell));
    inputs.chain(cells).collect(heap)
}

// Its devices: one for each need, at command 0 and count 0.
fn new_devices(heap: Global, contents: &Contents) -> Result<Vec<Device>, AllocError>
    ensures { IfOk result (λ v. v.items ≡ (new_of (declared_by contents.now)).devices) }
{
    contents
        .needs
        .iter()
        .map(|_| Device {
            command: 0,
            count: 0,
        })
        .collect(heap)
}

impl Work {
    // Places and devices as a package declares them, and no trail.
    pub fn new(heap: Global, held: &Package) -> Result<Work, AllocError>
        ensures { IfOk result (λ w. held_of w ≡ new_of (program_of held.now)) }
    {
        let items = new_places(heap, held.contents())?;
        let devices = new_devices(heap, held.contents())?;
        Ok(Work {
            places: Places { items },
            devices,
            steps: 0,
            refused: 0,
            trail: None,
        })
    }
}
