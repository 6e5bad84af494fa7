// The body of a procedure, checked: its blocks, its most steps and the highest procedure that it calls, or its first fault.
ghost use Rattle.std.specs.Prelude.{◌≡◌, ℕ, ◌+◌, ◌-◌, ◌*◌, ◌^◌, ◌<◌, ◌≤◌, length, vec_len, slice_index};
ghost use Rattle.layout.specs.Tree.{Choice};
ghost use Rattle.layout.specs.Layout.{command_bytes, choose as flat_choose, choice_head};
ghost use Rattle.layout.specs.Scope.{turns as flat_turns, named, targets, low, blocks as block_count, plain_named, plain_targets, place as is_place, table as is_table, device as is_device, cell as is_cell};
ghost use Rattle.layout.specs.Limits.{Kept};
ghost use Rattle.layout.specs.Declarations.{heights_of, steps_of};
ghost use Rattle.commands.specs.Reads.{plain_of, flat_of};
ghost use Rattle.package.specs.Holds.{scope_of, Decides};
ghost use Rattle.package.specs.Walks.{capped, WalksOne, WalksAll, WalksBlock, WalksBody};

use super::refusal::{Fault, Refusal};
use commands::{Command, Plain, decode};
use layout::{Procedure, Span};

// What the commands of a body may name: so many places, tables and devices, and the procedures declared before it.
// The places below `inputs` are inputs. Contracts see it through one function, `scope_of`, since a model would forget the
// procedures and forbid the copy.
#[derive(Clone, Copy)]
pub(crate) struct Scope<'a> {
    pub(crate) inputs: usize,
    pub(crate) places: usize,
    pub(crate) tables: usize,
    pub(crate) devices: usize,
    pub(crate) procedures: &'a [Procedure],
}

// Where commands lie: what they may name, how deep their block is, and how many blocks are counted and not yet entered.
// That the depth is at most 8 stands with each function: with a ghost field for it no literal may say `..nest`, and a
// method that makes the inner nest would say in three clauses what the literal shows.
#[derive(Clone, Copy)]
struct Nest<'a> {
    scope: Scope<'a>,
    depth: u8,
    waiting: usize,
}

// What a command, a block or a body comes to: its most steps, and the height of the highest procedure that it calls.
// Steps are added up to the largest number there is, and never past it.
#[derive(Clone, Copy)]
pub(crate) struct Cost {
    pub(crate) steps: u64,
    pub(crate) highest: u8,
}

// A test for each rule, under the rule's name: one test of a number against a count would say less where it is called.
impl Scope<'_> {
    fn has_place(self, place: u8) -> bool
        ensures { result ≡ is_place (scope_of self.entry) place }
    {
        usize::from(place) < self.places
    }

    fn has_table(self, table: u8) -> bool
        ensures { result ≡ is_table (scope_of self.entry) table }
    {
        usize::from(table) < self.tables
    }

    fn has_device(self, device: u8) -> bool
        ensures { result ≡ is_device (scope_of self.entry) device }
    {
        usize::from(device) < self.devices
    }

    fn is_no_input(self, place: u8) -> bool
        ensures { result ≡ is_cell (scope_of self.entry) place }
    {
        self.inputs <= usize::from(place)
    }
}

// Whether every number that a plain command uses is declared.
fn plain_declared<'a>(plain: Plain, scope: Scope<'a>) -> bool
    ensures { result ≡ plain_named (scope_of scope.entry) (plain_of plain) }
{
    match plain {
        Plain::Set { target, .. } => scope.has_place(target),
        Plain::Copy { target, source } => scope.has_place(target) && scope.has_place(source),
        Plain::Combine {
            target,
            left,
            right,
            ..
        } => scope.has_place(target) && scope.has_place(left) && scope.has_place(right),
        Plain::Pick {
            target,
            table,
            index,
        } => scope.has_place(target) && scope.has_table(table) && scope.has_place(index),
        Plain::Put {
            table,
            index,
            source,
        } => scope.has_table(table) && scope.has_place(index) && scope.has_place(source),
        Plain::Drive { device, source } => scope.has_device(device) && scope.has_place(source),
    }
}

// Whether every number that a command uses is declared, and a called procedure is lower.
fn declared<'a, 'b>(command: Command<'a>, scope: Scope<'b>) -> bool
    ensures { result ≡ named (scope_of scope.entry) (flat_of command.entry) }
{
    match command {
        Command::Plain(plain) => plain_declared(plain, scope),
        Command::When { place, .. } | Command::Loop { place, .. } | Command::Try { place, .. } => {
            scope.has_place(place)
        }
        Command::Grant { .. } => true,
        Command::Call { procedure } => usize::from(procedure) < scope.procedures.len(),
    }
}

// Whether a plain command gives no input a value.
fn plain_spares_inputs<'a>(plain: Plain, scope: Scope<'a>) -> bool
    ensures { result ≡ plain_targets (scope_of scope.entry) (plain_of plain) }
{
    match plain {
        Plain::Set { target, .. }
        | Plain::Copy { target, .. }
        | Plain::Combine { target, .. }
        | Plain::Pick { target, .. } => scope.is_no_input(target),
        Plain::Put { .. } | Plain::Drive { .. } => true,
    }
}

// Whether a command gives no input a value.
fn spares_inputs<'a, 'b>(command: Command<'a>, scope: Scope<'b>) -> bool
    ensures { result ≡ targets (scope_of scope.entry) (flat_of command.entry) }
{
    match command {
        Command::Plain(plain) => plain_spares_inputs(plain, scope),
        _ => true,
    }
}

// Whether a loop turns at least once.
fn turns<'a>(command: Command<'a>) -> bool
    ensures { result ≡ flat_turns (flat_of command.entry) }
{
    match command {
        Command::Loop { times, .. } => times != 0,
        _ => true,
    }
}

// The height of a procedure, 0 where there is none.
fn height(procedures: &[Procedure], procedure: u8) -> u8
    ensures { result ≡ slice_index (heights_of procedures.now) procedure }
{
    procedures
        .get(usize::from(procedure))
        .map_or(0, |callee| callee.height)
}

// Whether a command's blocks are nested at most 8 deep, and a procedure that makes this call is at most 8 high.
fn reaches<'a, 'b>(command: Command<'a>, scope: Scope<'b>, depth: u8) -> bool
    ensures { result ≡ low (scope_of scope.entry) depth (flat_of command.entry) }
{
    match command {
        Command::Plain(_) => true,
        Command::Call { procedure } => height(scope.procedures, procedure) < 8,
        _ => depth < 8,
    }
}

// How many blocks a command has.
fn count<'a>(command: Command<'a>) -> usize
    ensures { result ≡ block_count (flat_of command.entry) }
{
    match command {
        Command::Plain(_) | Command::Call { .. } => 0,
        Command::Loop { .. } | Command::Grant { .. } => 1,
        Command::When { .. } | Command::Try { .. } => 2,
    }
}

// The first fault of a command at the offset `at`, its blocks apart, where `counted` blocks are counted before it.
fn first_fault<'a, 'b>(
    command: Command<'a>,
    nest: Nest<'b>,
    at: usize,
    counted: usize,
) -> Result<(), Refusal>
    requires { counted ≤ 256 }
    ensures { (n q : ℕ) → n + q ≡ counted → Decides (scope_of nest.entry.scope) (flat_of command.entry) at nest.entry.depth n q result }
{
    match command {
        _ if !turns(command) => Err(Refusal::Fault(Fault::PastEnd, at)),
        _ if !declared(command, nest.scope) => Err(Refusal::Fault(Fault::NotDeclared, at)),
        _ if !spares_inputs(command, nest.scope) => Err(Refusal::Fault(Fault::InputAsTarget, at)),
        _ if !reaches(command, nest.scope, nest.depth) => Err(Refusal::Fault(Fault::TooDeep, at)),
        _ if counted + count(command) > 256 => Err(Refusal::Fault(Fault::OverLimit, at)),
        _ => Ok(()),
    }
}

// A call: one step, and the body of the procedure.
fn call(procedures: &[Procedure], procedure: u8) -> Cost
    ensures { (result.steps ≡ capped (1 + slice_index (steps_of procedures.now) procedure)) × (result.highest ≡ slice_index (heights_of procedures.now) procedure) }
{
    let callee = procedures.get(usize::from(procedure));
    Cost {
        steps: callee.map_or(0, |callee| callee.steps).saturating_add(1),
        highest: callee.map_or(0, |callee| callee.height),
    }
}

// Holds the end of the block that is read; the end of the block around it comes back on every way out. It borrows the
// end while the blocks go on to the calls inside, so the two are arguments beside each other and no fields of one struct,
// and what ties them together is in each contract (docs/DECISIONS.md, "Forms").
struct EndGuard<'a> {
    end: &'a mut usize,
    outer: usize,
}

impl Drop for EndGuard<'_> {
    fn drop(self)
        ensures { self.exit.0.now ≡ self.entry.outer }
    {
        *self.end = self.outer;
        let EndGuard { end: _, outer: _ } = self;
    }
}

// The block of these bytes, at the offset `at`.
#[cycle(walk)]
fn block<'a>(
    bytes: &[u8],
    at: usize,
    end: &mut usize,
    nest: Nest<'a>,
    blocks: &mut Vec<Span>,
) -> Result<Cost, Refusal>
    requires fits { at + length bytes.now < 2 ^ 64 }
    requires few { vec_len blocks.old + 1 + nest.waiting ≤ 256 }
    requires deep { nest.depth ≤ 8 }
    ensures back { end.new ≡ end.old }
    ensures few { vec_len blocks.new + nest.entry.waiting ≤ 256 }
    ensures walks { WalksBlock (scope_of nest.entry.scope) bytes.now at nest.entry.depth nest.entry.waiting blocks.old.items blocks.new.items result }
{
    let guard = EndGuard {
        outer: *end,
        end: &mut *end,
    };
    *guard.end = at + bytes.len();
    let number = blocks.len();
    blocks.push(Span {
        start: at,
        length: bytes.len(),
        inside: 0,
    })?;
    let cost = check(bytes, guard.end, nest, blocks)?;
    let inside = blocks.len() - number - 1;
    blocks[number] = Span {
        start: at,
        length: bytes.len(),
        inside,
    };
    Ok(cost)
}

// A choice between two blocks, the first of which starts at `start`.
#[cycle(walk)]
fn choose<'a>(
    first: &[u8],
    second: &[u8],
    start: usize,
    end: &mut usize,
    nest: Nest<'a>,
    blocks: &mut Vec<Span>,
) -> Result<Cost, Refusal>
    requires fits { start + length first.now + length second.now < 2 ^ 64 }
    requires few { vec_len blocks.old + 2 + nest.waiting ≤ 256 }
    requires deep { nest.depth < 8 }
    ensures back { end.new ≡ end.old }
    ensures few { vec_len blocks.new + nest.entry.waiting ≤ 256 }
    ensures walks { (c : Choice) (at : ℕ) → at + choice_head c ≡ start → Kept (scope_of nest.entry.scope) nest.entry.depth (flat_choose c first.now second.now) → WalksOne (scope_of nest.entry.scope) (flat_choose c first.now second.now) at nest.entry.depth nest.entry.waiting blocks.old.items blocks.new.items result }
{
    let depth = nest.depth + 1;
    let waiting = nest.waiting + 1;
    let one = block(
        first,
        start,
        end,
        Nest {
            depth,
            waiting,
            ..nest
        },
        blocks,
    )?;
    let other = block(
        second,
        start + first.len(),
        end,
        Nest { depth, ..nest },
        blocks,
    )?;
    Ok(Cost {
        steps: one.steps.max(other.steps).saturating_add(1),
        highest: one.highest.max(other.highest),
    })
}

// A loop: one step, and for each turn the reading of its place and the block.
fn repeated(turn: Cost, times: u8) -> Cost
    ensures { (result.steps ≡ capped (capped (capped (turn.steps + 1) * times) + 1)) × (result.highest ≡ turn.highest) }
{
    let turns = turn
        .steps
        .saturating_add(1)
        .saturating_mul(u64::from(times));
    Cost {
        steps: turns.saturating_add(1),
        highest: turn.highest,
    }
}

// A grant: one step, and its block.
fn granted(under: Cost) -> Cost
    ensures { (result.steps ≡ capped (under.steps + 1)) × (result.highest ≡ under.highest) }
{
    Cost {
        steps: under.steps.saturating_add(1),
        highest: under.highest,
    }
}

// A command at the offset `at`: its own checks, then its blocks, and what it comes to.
#[cycle(walk)]
fn step<'a, 'b>(
    command: Command<'a>,
    at: usize,
    end: &mut usize,
    nest: Nest<'b>,
    blocks: &mut Vec<Span>,
) -> Result<Cost, Refusal>
    requires fits { at + length (command_bytes (flat_of command)) < 2 ^ 64 }
    requires few { vec_len blocks.old + nest.waiting ≤ 256 }
    requires deep { nest.depth ≤ 8 }
    ensures back { end.new ≡ end.old }
    ensures few { vec_len blocks.new + nest.entry.waiting ≤ 256 }
    ensures walks { WalksOne (scope_of nest.entry.scope) (flat_of command.entry) at nest.entry.depth nest.entry.waiting blocks.old.items blocks.new.items result }
{
    first_fault(command, nest, at, blocks.len() + nest.waiting)?;
    match command {
        Command::Plain(_) => Ok(Cost {
            steps: 1,
            highest: 0,
        }),
        Command::When { first, second, .. } => choose(first, second, at + 6, end, nest, blocks),
        Command::Loop { times, body, .. } => {
            let depth = nest.depth + 1;
            let turn = block(body, at + 5, end, Nest { depth, ..nest }, blocks)?;
            Ok(repeated(turn, times))
        }
        Command::Grant { body, .. } => {
            let depth = nest.depth + 1;
            let under = block(body, at + 11, end, Nest { depth, ..nest }, blocks)?;
            Ok(granted(under))
        }
        Command::Call { procedure } => Ok(call(nest.scope.procedures, procedure)),
        Command::Try { first, second, .. } => choose(first, second, at + 14, end, nest, blocks),
    }
}

// The commands of these bytes, which end at the offset `end`.
#[cycle(walk)]
fn check<'a>(
    bytes: &[u8],
    end: &mut usize,
    nest: Nest<'a>,
    blocks: &mut Vec<Span>,
) -> Result<Cost, Refusal>
    requires ends { length bytes.now ≤ end.old }
    requires few { vec_len blocks.old + nest.waiting ≤ 256 }
    requires deep { nest.depth ≤ 8 }
    ensures back { end.new ≡ end.old }
    ensures few { vec_len blocks.new + nest.entry.waiting ≤ 256 }
    ensures walks { WalksAll (scope_of nest.entry.scope) bytes.now (end.old - length bytes.now) nest.entry.depth nest.entry.waiting blocks.old.items blocks.new.items result }
{
    let mut rest = bytes;
    let mut steps = 0u64;
    let mut highest = 0u8;
    // The loop moves along the bytes. An iterator of commands would have to say in its contract, once more, how a block
    // is read, and to answer an offset and a refusal with each.
    while !rest.is_empty() {
        let at = *end - rest.len();
        let (command, after) = match decode(rest) {
            Ok(read) => read,
            Err(unread) => return Err(Refusal::Fault(Fault::from(unread), at)),
        };
        let cost = step(command, at, end, nest, blocks)?;
        steps = steps.saturating_add(cost.steps);
        highest = highest.max(cost.highest);
        rest = after;
    }
    Ok(Cost { steps, highest })
}

// The body of a procedure, at the offset `at`.
pub(crate) fn body<'a>(
    bytes: &[u8],
    scope: Scope<'a>,
    at: usize,
    blocks: &mut Vec<Span>,
) -> Result<Cost, Refusal>
    requires fits { at + length bytes.now < 2 ^ 64 }
    requires few { vec_len blocks.old < 256 }
    ensures few { vec_len blocks.new ≤ 256 }
    ensures walks { WalksBody (scope_of scope.entry) bytes.now at blocks.old.items blocks.new.items result }
{
    let mut end = at + bytes.len();
    let nest = Nest {
        scope,
        depth: 0,
        waiting: 0,
    };
    block(bytes, at, &mut end, nest, blocks)
}
