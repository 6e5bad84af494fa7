// The calls of an input.
ghost use Rattle.std.specs.Prelude.{◌≡◌, ◌∷◌, ◌≤◌, length, IfOk};
ghost use Rattle.station.specs.Script.{script, post, read, show};
ghost use Rattle.station.specs.Begins.{Begins};

use super::lines::Stop;
use rules::Call;
use std::alloc::{AllocError, Global};

// The calls up to the end, or up to what stops the station.
#[derive(Drop)]
pub(crate) struct Script {
    pub(crate) calls: Vec<Call>,
    pub(crate) stop: Option<Stop>,
}

// A post, by the bytes behind the one that names it.
fn read_post<'a>(operands: &'a [u8]) -> Result<(Call, &'a [u8]), Stop>
    ensures { Begins operands.now (post operands.now) result }
{
    match operands {
        &[party, place, v3, v2, v1, v0, ref rest @ ..] => {
            let value = u32::from_be_bytes([v3, v2, v1, v0]);
            Ok((
                Call::Post {
                    party,
                    place,
                    value,
                },
                rest,
            ))
        }
        _ => Err(Stop::EndsEarly),
    }
}

// A read, by the bytes behind the one that names it.
fn read_read<'a>(operands: &'a [u8]) -> Result<(Call, &'a [u8]), Stop>
    ensures { Begins operands.now (read operands.now) result }
{
    match operands {
        &[place, right, ref rest @ ..] => Ok((Call::Read { place, right }, rest)),
        _ => Err(Stop::EndsEarly),
    }
}

// A show, by the bytes behind the one that names it.
fn read_show<'a>(operands: &'a [u8]) -> Result<(Call, &'a [u8]), Stop>
    ensures { Begins operands.now (show operands.now) result }
{
    match operands {
        &[device, ref rest @ ..] => Ok((Call::Show { device }, rest)),
        _ => Err(Stop::EndsEarly),
    }
}

// The call that the byte `lead` names, and the bytes behind it.
fn read_call<'a>(lead: u8, operands: &'a [u8]) -> Result<(Call, &'a [u8]), Stop>
    ensures { Begins operands.now (script (lead ∷ operands.now)) result }
{
    match lead {
        0x10 => read_post(operands),
        0x11 => Ok((Call::Cycle, operands)),
        0x12 => read_read(operands),
        0x13 => read_show(operands),
        _ => Err(Stop::WrongByte),
    }
}

// The calls of these bytes. The loop moves along the bytes: an iterator of calls would have to say in its contract, once
// more, how a call is read.
pub(crate) fn read_script(heap: Global, bytes: &[u8]) -> Result<Script, AllocError>
    ensures { IfOk result (λ s. (s.calls.items ≡ (script bytes.now).calls) × (s.stop ≡ (script bytes.now).stop)) }
{
    let mut calls = Vec::new(heap);
    let mut rest = bytes;
    while let Some((lead, operands)) = rest.split_first() {
        match read_call(*lead, operands) {
            Ok((call, after)) => {
                calls.push(call)?;
                rest = after;
            }
            Err(stop) => {
                return Ok(Script {
                    calls,
                    stop: Some(stop),
                });
            }
        }
    }
    Ok(Script { calls, stop: None })
}
