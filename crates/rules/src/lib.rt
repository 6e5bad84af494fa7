// The written rules: what each command, a cycle and each call do, and what holds of every run.
#![tactic(auto)]

pub mod theorems;

// What a place holds: a value, and the frame of everyone who had a hand in it.
#[derive(Clone, Copy, Debug, PartialEq, Eq)]
pub struct Place {
    pub value: u32,
    pub frame: u64,
}

// What a device shows: the latest command that it was given, and how many it was given.
#[derive(Clone, Copy, Debug, PartialEq, Eq)]
pub struct Device {
    pub command: u32,
    pub count: u32,
}

// Why a drive is refused: the rights in force lack the device's need, or else the information does.
#[derive(Clone, Copy, Debug, PartialEq, Eq)]
pub enum Cause {
    Rights,
    Information,
}

// A refused drive: the procedure whose body holds it, its offset in the package, the device, the cause, and the lowest
// right of the need that is missing.
#[derive(Clone, Copy, Debug, PartialEq, Eq)]
pub struct Trail {
    pub procedure: u8,
    pub offset: usize,
    pub device: u8,
    pub cause: Cause,
    pub right: u8,
}

// What a command runs with: the procedure whose body holds it, the frame of that procedure's party (S), the rights in
// force (D), and the frame of the decisions so far (pc).
#[derive(Clone, Copy, Debug, PartialEq, Eq)]
pub struct Context {
    pub procedure: u8,
    pub own: u64,
    pub rights: u64,
    pub decisions: u64,
}

// A call that may stand in a list of calls.
#[derive(Clone, Copy, Debug, PartialEq, Eq)]
pub enum Call {
    Post { party: u8, place: u8, value: u32 },
    Cycle,
    Read { place: u8, right: u8 },
    Show { device: u8 },
}

// Why a call is refused.
#[derive(Clone, Copy, Debug, PartialEq, Eq)]
pub enum Refusal {
    NoSuchParty,
    NoSuchPlace,
    NotItsInput,
    NoSuchRight,
    NotTrusted,
    NoSuchDevice,
}

// What a call answers. A cycle answers its steps and the drives that it refused, a read the value and the frame of a
// place, a show the command and the count of a device: figures that were shown, and no place or device that is held.
#[derive(Clone, Copy, Debug, PartialEq, Eq)]
pub enum Answer {
    Post(Result<(), Refusal>),
    Cycle((u32, u32)),
    Read(Result<(u32, u64), Refusal>),
    Show(Result<(u32, u32), Refusal>),
}
