// Commands, taken off the front of a block.
#![tactic(auto)]

ghost use Rattle.std.specs.Prelude.{◌≡◌, ℕ, ◌-◌, ◌<◌, ◌≤◌, length, MatchResult, slice_index};
ghost use Rattle.layout.specs.Bytes.{be16, be64};
ghost use Rattle.layout.specs.Front.{front};
ghost use Rattle.layout.specs.Layout.{loop as flat_loop, grant as flat_grant};
ghost use Rattle.layout.specs.Tree.{when_place, try_frame};
ghost use Rattle.commands.specs.Reads.{Reads, ReadsPlain, CutOff, CutTwo, one_block, two_blocks};

use std::fmt;

// What combines two values.
#[derive(Clone, Copy, Debug, PartialEq, Eq)]
pub enum Operation {
    Add,
    Sub,
    Less,
    Same,
    Bits,
}

// An operation by the name of its command.
impl fmt::Display for Operation {
    fn fmt<W: fmt::Write>(&self, f: &mut fmt::Formatter<W>) -> fmt::Result {
        f.write_str(match self {
            Operation::Add => "ADD",
            Operation::Sub => "SUB",
            Operation::Less => "LESS",
            Operation::Same => "SAME",
            Operation::Bits => "BITS",
        })
    }
}

// A command that runs no block and calls no procedure.
#[derive(Clone, Copy, Debug, PartialEq, Eq)]
pub enum Plain {
    Set {
        target: u8,
        value: u32,
    },
    Copy {
        target: u8,
        source: u8,
    },
    Combine {
        operation: Operation,
        target: u8,
        left: u8,
        right: u8,
    },
    Pick {
        target: u8,
        table: u8,
        index: u8,
    },
    Put {
        table: u8,
        index: u8,
        source: u8,
    },
    Drive {
        device: u8,
        source: u8,
    },
}

// A command, whose blocks are parts of the package.
#[derive(Clone, Copy)]
pub enum Command<'a> {
    Plain(Plain),
    When {
        place: u8,
        first: &'a [u8],
        second: &'a [u8],
    },
    Loop {
        place: u8,
        times: u8,
        body: &'a [u8],
    },
    Grant {
        frame: u64,
        body: &'a [u8],
    },
    Call {
        procedure: u8,
    },
    Try {
        frame: u64,
        place: u8,
        first: &'a [u8],
        second: &'a [u8],
    },
}

// Why there is no command: no command has this byte, or it runs past the end of the block.
#[derive(Clone, Copy, Debug, PartialEq, Eq)]
pub enum Unread {
    NoSuchByte,
    PastEnd,
}

// Cuts a block off the front, whose length stands in these two bytes.
pub fn cut<'a>(bytes: &'a [u8], length: [u8; 2]) -> Result<(&'a [u8], &'a [u8]), Unread>
    ensures { CutOff (be16 «length» 0) bytes.now result }
{
    let length = usize::from(u16::from_be_bytes(length));
    bytes.split_at_checked(length).ok_or(Unread::PastEnd)
}

// A command that combines two values.
fn combine(operation: Operation, target: u8, left: u8, right: u8) -> Plain
    ensures { result ≡ Plain.Combine operation target left right }
{
    Plain::Combine {
        operation,
        target,
        left,
        right,
    }
}

// The plain command at the front of a block, which no byte from 0x0B to 0x0F leads, and the bytes behind it.
fn decode_plain<'a>(bytes: &'a [u8]) -> Result<(Plain, &'a [u8]), Unread>
    ensures { (0x0B ≤ slice_index bytes.now 0 → slice_index bytes.now 0 ≤ 0x0F → ⊥) → ReadsPlain (front bytes.now) result }
{
    match bytes {
        &[0x01, target, n3, n2, n1, n0, ref rest @ ..] => {
            let value = u32::from_be_bytes([n3, n2, n1, n0]);
            Ok((Plain::Set { target, value }, rest))
        }
        &[0x02, target, source, ref rest @ ..] => Ok((Plain::Copy { target, source }, rest)),
        &[0x03, x, a, b, ref rest @ ..] => Ok((combine(Operation::Add, x, a, b), rest)),
        &[0x04, x, a, b, ref rest @ ..] => Ok((combine(Operation::Sub, x, a, b), rest)),
        &[0x05, x, a, b, ref rest @ ..] => Ok((combine(Operation::Less, x, a, b), rest)),
        &[0x06, x, a, b, ref rest @ ..] => Ok((combine(Operation::Same, x, a, b), rest)),
        &[0x07, x, a, b, ref rest @ ..] => Ok((combine(Operation::Bits, x, a, b), rest)),
        &[0x08, target, table, index, ref rest @ ..] => {
            Ok((
                Plain::Pick {
                    target,
                    table,
                    index,
                },
                rest,
            ))
        }
        &[0x09, table, index, source, ref rest @ ..] => {
            Ok((
                Plain::Put {
                    table,
                    index,
                    source,
                },
                rest,
            ))
        }
        &[0x0A, device, source, ref rest @ ..] => Ok((Plain::Drive { device, source }, rest)),
        [0x01..=0x0A, ..] => Err(Unread::PastEnd),
        [] => Err(Unread::PastEnd),
        [_, ..] => Err(Unread::NoSuchByte),
    }
}

// Cuts two blocks off the front, the lengths of which stand in these bytes.
fn cut_two<'a>(
    bytes: &'a [u8],
    l: [u8; 2],
    m: [u8; 2],
) -> Result<(&'a [u8], &'a [u8], &'a [u8]), Unread>
    ensures { CutTwo (be16 l 0) (be16 m 0) bytes.now result }
{
    let (first, rest) = cut(bytes, l)?;
    let (second, rest) = cut(rest, m)?;
    Ok((first, second, rest))
}

// A WHEN, the lengths of whose two blocks stand in these bytes.
fn when<'a>(
    place: u8,
    l: [u8; 2],
    m: [u8; 2],
    rest: &'a [u8],
) -> Result<(Command<'a>, &'a [u8]), Unread>
    ensures { Reads (two_blocks (when_place place) (be16 l 0) (be16 m 0) rest.now) result }
{
    let (first, second, rest) = cut_two(rest, l, m)?;
    let command = Command::When {
        place,
        first,
        second,
    };
    Ok((command, rest))
}

// A TRY, whose frame and the lengths of whose two blocks stand in these bytes.
fn attempt<'a>(
    frame: [u8; 8],
    place: u8,
    l: [u8; 2],
    m: [u8; 2],
    rest: &'a [u8],
) -> Result<(Command<'a>, &'a [u8]), Unread>
    ensures { Reads (two_blocks (try_frame (be64 frame 0) place) (be16 l 0) (be16 m 0) rest.now) result }
{
    let (first, second, rest) = cut_two(rest, l, m)?;
    let command = Command::Try {
        frame: u64::from_be_bytes(frame),
        place,
        first,
        second,
    };
    Ok((command, rest))
}

// A LOOP, the length of whose block stands in these bytes.
fn repeat<'a>(
    place: u8,
    times: u8,
    length: [u8; 2],
    rest: &'a [u8],
) -> Result<(Command<'a>, &'a [u8]), Unread>
    ensures { Reads (one_block (λ y. flat_loop place times y) (be16 «length» 0) rest.now) result }
{
    let (body, rest) = cut(rest, length)?;
    let command = Command::Loop { place, times, body };
    Ok((command, rest))
}

// A GRANT, whose frame and the length of whose block stand in these bytes.
fn granting<'a>(
    frame: [u8; 8],
    length: [u8; 2],
    rest: &'a [u8],
) -> Result<(Command<'a>, &'a [u8]), Unread>
    ensures { Reads (one_block (λ y. flat_grant (be64 frame 0) y) (be16 «length» 0) rest.now) result }
{
    let frame = u64::from_be_bytes(frame);
    let (body, rest) = cut(rest, length)?;
    Ok((Command::Grant { frame, body }, rest))
}

// The command at the front of a block, and the bytes behind it.
pub fn decode<'a>(bytes: &'a [u8]) -> Result<(Command<'a>, &'a [u8]), Unread>
    ensures { Reads (front bytes.now) result }
{
    match bytes {
        &[0x0B, place, l1, l0, m1, m0, ref rest @ ..] => when(place, [l1, l0], [m1, m0], rest),
        &[0x0C, place, times, l1, l0, ref rest @ ..] => repeat(place, times, [l1, l0], rest),
        &[0x0D, g7, g6, g5, g4, g3, g2, g1, g0, l1, l0, ref rest @ ..] => {
            granting([g7, g6, g5, g4, g3, g2, g1, g0], [l1, l0], rest)
        }
        &[0x0E, procedure, ref rest @ ..] => Ok((Command::Call { procedure }, rest)),
        &[
            0x0F,
            g7,
            g6,
            g5,
            g4,
            g3,
            g2,
            g1,
            g0,
            place,
            l1,
            l0,
            m1,
            m0,
            ref rest @ ..,
        ] => {
            let frame = [g7, g6, g5, g4, g3, g2, g1, g0];
            attempt(frame, place, [l1, l0], [m1, m0], rest)
        }
        [0x0B..=0x0F, ..] => Err(Unread::PastEnd),
        _ => {
            let (plain, rest) = decode_plain(bytes)?;
            Ok((Command::Plain(plain), rest))
        }
    }
}
