// The calls of a controller.
ghost use Rattle.std.specs.Prelude.{◌≡◌, [], Bool, ℕ, ◌+◌, ◌≤◌};
ghost use Rattle.rules.specs.Calls.{owns as owns_it, post_answer, read_answer, show_answer, posting, posted, cycle as cycle_of, cycle_answer, kept};
ghost use Rattle.running.specs.States.{held_of};
ghost use Rattle.running.specs.Parts.{mixing, declared_by};
ghost use Rattle.controller.specs.Holding.{says, built};

use crate::controller::Controller;
use frames::{FrameKind, GrantKind};
use oracles::WriteOracle;
use package::contents::Contents;
use rules::{Place, Refusal, Trail};
use running::assembly::Assembly;
use running::cycling::run_cycle;
use running::lookups::frame_of;
use running::places::Work;

// Whether a place is an input of a party.
fn owns(contents: &Contents, party: u8, place: u8) -> bool
    ensures { result ≡ owns_it (declared_by contents.now) party place }
{
    match contents.inputs.get(usize::from(place)) {
        Some(input) => input.party == party,
        None => false,
    }
}

// Whether a party may post to a place.
fn judge_post(contents: &Contents, party: u8, place: u8) -> Result<(), Refusal>
    ensures { result ≡ post_answer (declared_by contents.now) party place }
{
    if usize::from(party) >= contents.parties.len() {
        return Err(Refusal::NoSuchParty);
    }
    if usize::from(place) >= contents.places() {
        return Err(Refusal::NoSuchPlace);
    }
    if !owns(contents, party, place) {
        return Err(Refusal::NotItsInput);
    }
    Ok(())
}

// A post that is accepted.
fn accept_post(contents: &Contents, work: &mut Work, party: u8, place: u8, value: u32)
    ensures { held_of work.new ≡ posting (declared_by contents.now) party place value (held_of work.old) }
{
    let frame = frame_of(&contents.parties, party);
    work.write(place, Place { value, frame });
}

// A post, accepted or refused.
fn post_to(
    contents: &Contents,
    work: &mut Work,
    party: u8,
    place: u8,
    value: u32,
) -> Result<(), Refusal>
    ensures answer { result ≡ post_answer (declared_by contents.now) party place }
    ensures holds { held_of work.new ≡ posted (declared_by contents.now) party place value (held_of work.old) }
{
    let judged = judge_post(contents, party, place);
    if judged.is_ok() {
        accept_post(contents, work, party, place, value);
    }
    judged
}

// What a place holds, for a right.
fn read_place<K: FrameKind>(
    contents: &Contents,
    work: &Work,
    place: u8,
    right: u8,
) -> Result<(u32, u64), Refusal>
    ensures { result ≡ read_answer (mixing K.FrameKind.meaning) (declared_by contents.now) (held_of work.now) place right }
{
    if usize::from(place) >= contents.places() {
        return Err(Refusal::NoSuchPlace);
    }
    if right > 63 {
        return Err(Refusal::NoSuchRight);
    }
    let (value, frame) = work.fetch(place);
    if !K::trusted(frame, right) {
        return Err(Refusal::NotTrusted);
    }
    Ok((value, frame))
}

// What a device shows.
fn show_device(contents: &Contents, work: &Work, device: u8) -> Result<(u32, u32), Refusal>
    ensures { result ≡ show_answer (declared_by contents.now) (held_of work.now) device }
{
    if usize::from(device) >= contents.needs.len() {
        return Err(Refusal::NoSuchDevice);
    }
    Ok(work.shown(device))
}

impl<A: Assembly> Controller<A> {
    // A party gives an input a value: the input gets the value and its party's frame.
    pub fn post(&mut self, party: u8, place: u8, value: u32) -> Result<(), Refusal>
        ensures answer { result ≡ post_answer (says self.old.held) party place }
        ensures holds { held_of self.new.work ≡ posted (says self.old.held) party place value (held_of self.old.work) }
        ensures keeps { (self.new.held ≡ self.old.held) × (self.new.oracle ≡ self.old.oracle) }
    {
        post_to(self.held.contents(), &mut self.work, party, place, value)
    }

    // Runs the entries in order; answers the steps done and the drives refused.
    pub fn cycle(&mut self) -> (u32, u32)
        ensures answer { result ≡ cycle_answer (cycle_of (built A.Kind.meaning A.Kind.widening A.Oracle.sets self.old.held) (says self.old.held) (held_of self.old.work)) }
        ensures holds { held_of self.new.work ≡ kept (cycle_of (built A.Kind.meaning A.Kind.widening A.Oracle.sets self.old.held) (says self.old.held) (held_of self.old.work)) }
        ensures brief { (result.0 ≤ 1000000) × (result.1 ≤ result.0) }
        ensures keeps { (self.new.held ≡ self.old.held) × (self.new.oracle ≡ self.old.oracle) }
    {
        run_cycle::<A>(&self.held, &self.oracle, &mut self.stack, &mut self.work);
        (self.work.steps, self.work.refused)
    }

    // The value and the frame of a place, in the name of a right.
    pub fn read(&self, place: u8, right: u8) -> Result<(u32, u64), Refusal>
        ensures { result ≡ read_answer (built A.Kind.meaning A.Kind.widening A.Oracle.sets self.now.held) (says self.now.held) (held_of self.now.work) place right }
    {
        read_place::<A::Kind>(self.held.contents(), &self.work, place, right)
    }

    // The command and the count of a device.
    pub fn show(&self, device: u8) -> Result<(u32, u32), Refusal>
        ensures { result ≡ show_answer (says self.now.held) (held_of self.now.work) device }
    {
        show_device(self.held.contents(), &self.work, device)
    }

    // The first drive that the latest cycle refused.
    pub fn trail(&self) -> Option<Trail>
        ensures { result ≡ (held_of self.now.work).trail }
    {
        self.work.trail
    }
}
