// The blocks that are being run.
ghost use Rattle.std.specs.Prelude.{◌≤◌, vec_capacity};

use rules::Context;

// The turns that are left of a loop: the place that it reads, its block and where that starts, the frame of its readings
// so far, and the frame of the decisions around it.
#[derive(Clone, Copy)]
pub struct Turns {
    pub place: u8,
    pub block: usize,
    pub start: usize,
    pub left: u8,
    pub learned: u64,
    pub decisions: u64,
}

// What is done when a block ends: nothing, the lowering of a choice, or the next reading of a loop.
#[derive(Clone, Copy)]
pub enum Closing {
    Nothing,
    Choice {
        first: usize,
        second: usize,
        told: u64,
    },
    Loop(Turns),
}

// A block that is being run: the offsets of its next command and of its end, the number of the next block inside it,
// what its commands run with, and what is done when it ends.
#[derive(Clone, Copy)]
pub struct Level {
    pub at: usize,
    pub end: usize,
    pub next: usize,
    pub context: Context,
    pub closing: Closing,
}

// The blocks around the one that is being run, the innermost last. There is room for all that a package can nest.
#[derive(Drop)]
pub struct Stack {
    pub(crate) levels: Vec<Level>,
    ghost room: { 72 ≤ vec_capacity levels },
}
