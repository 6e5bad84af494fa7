// Declarations, taken off the front of a package.
ghost use Rattle.std.specs.Prelude.{◌≡◌, ℕ, ◌+◌, ◌-◌, ◌^◌, ◌<◌, ◌≤◌, length, slice_index};
ghost use Rattle.layout.specs.Bytes.{be16};
ghost use Rattle.layout.specs.Packages.{leads as may_lead};
ghost use Rattle.package.specs.Items.{ReadsItem, ReadsProcedure, Takes, item_of};

use super::refusal::{Fault, Refusal};
use commands::cut;
use layout::{Cell, Input, Table};

// A declaration, whose body is a part of the package.
#[derive(Clone, Copy)]
pub(crate) enum Declaration<'a> {
    Party { frame: u64 },
    Input(Input),
    Cell(Cell),
    Table(Table),
    Device { need: u64 },
    Procedure { party: u8, body: &'a [u8] },
    Entry { procedure: u8 },
}

// A procedure, the length of whose body stands in these two bytes; none where the bytes behind them are cut short.
fn procedure<'a>(party: u8, length: [u8; 2], rest: &'a [u8]) -> Option<(Declaration<'a>, &'a [u8])>
    ensures { ReadsProcedure party (be16 «length» 0) rest.now result }
{
    let (body, rest) = cut(rest, length).ok()?;
    Some((Declaration::Procedure { party, body }, rest))
}

// The declaration of these bytes, which a declaration's byte leads, and the bytes behind it; none where they are cut short.
fn decode_declaration<'a>(bytes: &'a [u8]) -> Option<(Declaration<'a>, &'a [u8])>
    ensures { 0x81 ≤ slice_index bytes.now 0 → slice_index bytes.now 0 ≤ 0x87 → ReadsItem bytes.now result }
{
    match bytes {
        &[0x81, g7, g6, g5, g4, g3, g2, g1, g0, ref rest @ ..] => {
            let frame = u64::from_be_bytes([g7, g6, g5, g4, g3, g2, g1, g0]);
            Some((Declaration::Party { frame }, rest))
        }
        &[0x82, party, v3, v2, v1, v0, ref rest @ ..] => {
            let value = u32::from_be_bytes([v3, v2, v1, v0]);
            Some((Declaration::Input(Input { party, value }), rest))
        }
        &[
            0x83,
            v3,
            v2,
            v1,
            v0,
            g7,
            g6,
            g5,
            g4,
            g3,
            g2,
            g1,
            g0,
            ref rest @ ..,
        ] => {
            let value = u32::from_be_bytes([v3, v2, v1, v0]);
            let frame = u64::from_be_bytes([g7, g6, g5, g4, g3, g2, g1, g0]);
            Some((Declaration::Cell(Cell { value, frame }), rest))
        }
        &[0x84, first, length, ref rest @ ..] => {
            Some((Declaration::Table(Table { first, length }), rest))
        }
        &[0x85, g7, g6, g5, g4, g3, g2, g1, g0, ref rest @ ..] => {
            let need = u64::from_be_bytes([g7, g6, g5, g4, g3, g2, g1, g0]);
            Some((Declaration::Device { need }, rest))
        }
        &[0x86, party, l1, l0, ref rest @ ..] => procedure(party, [l1, l0], rest),
        &[0x87, procedure, ref rest @ ..] => Some((Declaration::Entry { procedure }, rest)),
        _ => None,
    }
}

// Whether a byte may lead a declaration.
fn leads(byte: u8) -> bool
    ensures { result ≡ may_lead byte }
{
    (0x81..=0x88).contains(&byte)
}

// The declaration at the front of the bytes from the offset `at` on, behind one that the byte `latest` led, and the bytes
// behind it; none where FINISH stands there. The layout orders declarations by their leading bytes, so these are compared
// as they are: an enum of sorts would be made of both only to compare it.
pub(crate) fn take<'a>(
    bytes: &'a [u8],
    at: usize,
    latest: u8,
) -> Result<Option<(Declaration<'a>, &'a [u8])>, Refusal>
    requires { at + length bytes.now < 2 ^ 63 }
    ensures { Takes bytes.now at latest result }
{
    match bytes {
        [] => Err(Refusal::Fault(Fault::EndsEarly, at)),
        [lead, ..] if !leads(*lead) => Err(Refusal::Fault(Fault::NoSuchByte, at)),
        [lead, ..] if *lead < latest => Err(Refusal::Fault(Fault::ByteFalls, at)),
        [0x88] => Ok(None),
        [0x88, _, ..] => Err(Refusal::Fault(Fault::AfterFinish, at + 1)),
        _ => match decode_declaration(bytes) {
            Some(declared) => Ok(Some(declared)),
            None => Err(Refusal::Fault(Fault::EndsEarly, at + bytes.len())),
        },
    }
}
