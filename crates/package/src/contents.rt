// What has been declared.
ghost use Rattle.std.specs.Prelude.{◌≡◌, ◌+◌, vec_len};
ghost use Rattle.layout.specs.Declarations.{nothing};
ghost use Rattle.package.specs.Declares.{contents_of};

use layout::{Cell, Input, Procedure, Span, Table};
use std::alloc::{AllocError, Global};

// The declarations of a package by their sorts, each numbered from 0 in its order.
// Inputs and cells stand in one row of places, the inputs first. Other crates read the fields, so contracts see them
// through one function, `contents_of`, and no model hides them.
#[derive(Drop)]
pub struct Contents {
    // The frame of each party: the rights that it holds.
    pub parties: Vec<u64>,
    pub inputs: Vec<Input>,
    pub cells: Vec<Cell>,
    pub tables: Vec<Table>,
    // The need of each device: the frame that a drive has to cover.
    pub needs: Vec<u64>,
    pub procedures: Vec<Procedure>,
    // The entries: the procedures that each cycle runs, in their order.
    pub entries: Vec<u8>,
    // Every block, in the order in which blocks are entered, which is the order of their numbers.
    pub blocks: Vec<Span>,
    // The most steps of a cycle.
    pub steps: u64,
}

impl Contents {
    // Nothing declared yet.
    pub(crate) fn new(heap: Global) -> Contents
        ensures { contents_of result ≡ nothing }
    {
        Contents {
            parties: Vec::new(heap),
            inputs: Vec::new(heap),
            cells: Vec::new(heap),
            tables: Vec::new(heap),
            needs: Vec::new(heap),
            procedures: Vec::new(heap),
            entries: Vec::new(heap),
            blocks: Vec::new(heap),
            steps: 0,
        }
    }

    // How many places there are.
    pub fn places(&self) -> usize
        ensures { result ≡ vec_len self.now.inputs + vec_len self.now.cells }
    {
        self.inputs.len() + self.cells.len()
    }
}

// The same declarations once more. Each sort is copied in one piece: what a derive writes goes item by item, which cost
// `Package::clone` up to a third more instructions.
impl Clone for Contents {
    ghost is_clone = { λ c d. contents_of d ≡ contents_of c };

    fn clone(&self) -> Result<Contents, AllocError> {
        let heap = *self.parties.allocator();
        Ok(Contents {
            parties: Vec::from_slice(heap, &self.parties)?,
            inputs: Vec::from_slice(heap, &self.inputs)?,
            cells: Vec::from_slice(heap, &self.cells)?,
            tables: Vec::from_slice(heap, &self.tables)?,
            needs: Vec::from_slice(heap, &self.needs)?,
            procedures: Vec::from_slice(heap, &self.procedures)?,
            entries: Vec::from_slice(heap, &self.entries)?,
            blocks: Vec::from_slice(heap, &self.blocks)?,
            steps: self.steps,
        })
    }
}
