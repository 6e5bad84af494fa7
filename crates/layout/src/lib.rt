// What the bytes of a rule package mean: the declared things, the tree of commands, the layout and the limits.
#![tactic(auto)]

ghost use Rattle.layout.specs.Accepted.{AcceptedLawful};
ghost use Rattle.layout.specs.Law.{AcceptedExactly};

// An input: a place whose value its party posts. It starts with its party's frame, and no command gives it a value.
#[derive(Clone, Copy, Debug, PartialEq, Eq)]
pub struct Input {
    pub party: u8,
    pub value: u32,
}

// A cell: a place that commands give values. A frame is a 64-bit code that says which rights are held.
#[derive(Clone, Copy, Debug, PartialEq, Eq)]
pub struct Cell {
    pub value: u32,
    pub frame: u64,
}

// A table: `length` cells in a row, from the place `first` on.
#[derive(Clone, Copy, Debug, PartialEq, Eq)]
pub struct Table {
    pub first: u8,
    pub length: u8,
}

// A procedure: the party that owns it, where its body lies in the package, the number of its body as a block, its
// height, and the most steps of its body. Its height is 1 more than that of the highest procedure that it calls.
#[derive(Clone, Copy, Debug, PartialEq, Eq)]
pub struct Procedure {
    pub party: u8,
    pub start: usize,
    pub length: usize,
    pub block: usize,
    pub height: u8,
    pub steps: u64,
}

// A block: a body, or a part that a command runs. Where it lies, and how many blocks lie inside it. A start and a length
// stand for its bytes, as in a procedure, since a slice of the bytes cannot be kept beside the package that owns them.
#[derive(Clone, Copy, Debug, PartialEq, Eq)]
pub struct Span {
    pub start: usize,
    pub length: usize,
    pub inside: usize,
}

// A package is accepted exactly where its bytes are the layout of declarations that keep the limits.
pub fn accepted_exactly()
    ensures { AcceptedExactly }
{}

// What is accepted keeps every limit: numbers that are used are declared, tables hold cells, no command gives an input
// a value, called procedures are lower, and a cycle takes at most 1,000,000 steps.
pub fn accepted_lawful()
    ensures { AcceptedLawful }
{}
