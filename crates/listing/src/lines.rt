// The lines of a listing.
use commands::Plain;
use layout::{Cell, Input, Procedure, Table};

// A sort of declaration that a listing has a heading for.
#[derive(Clone, Copy, Debug, PartialEq, Eq)]
pub enum Sort {
    Parties,
    Places,
    Tables,
    Devices,
    Procedures,
    Entries,
}

// What a command does, its blocks apart. A `Command<()>` would say `first: ()` and `second: ()`, which no line shows.
#[derive(Clone, Copy, Debug, PartialEq, Eq)]
pub enum Action {
    Plain(Plain),
    When { place: u8 },
    Loop { place: u8, times: u8 },
    Grant { frame: u64 },
    Call { procedure: u8 },
    Try { frame: u64, place: u8 },
}

// When a block is run: it is a body; a choice fell on the first block or on the second; a loop turns; under a grant.
#[derive(Clone, Copy, Debug, PartialEq, Eq)]
pub enum Role {
    Body,
    First,
    Second,
    Turn,
    Granted,
}

// One line of a listing. `inputs` is how many places are inputs, by which a place has its name.
#[derive(Clone, Copy, Debug, PartialEq, Eq)]
pub enum Line {
    Heading {
        sort: Sort,
        count: usize,
    },
    Party {
        number: usize,
        frame: u64,
    },
    Input {
        number: usize,
        input: Input,
    },
    Cell {
        number: usize,
        cell: Cell,
    },
    Table {
        number: usize,
        table: Table,
    },
    Device {
        number: usize,
        need: u64,
    },
    Procedure {
        number: usize,
        procedure: Procedure,
    },
    Block {
        number: usize,
        depth: usize,
        role: Role,
    },
    Command {
        offset: usize,
        depth: usize,
        inputs: usize,
        action: Action,
    },
    Entry {
        number: usize,
        procedure: u8,
    },
    Cycle {
        steps: u64,
    },
}
