// Blocks are entered, and left behind for those inside them.
ghost use Rattle.std.specs.Prelude.{◌≡◌, ℕ, ◌+◌, ◌-◌, ◌<◌, Bool, [], ◌∷◌, length, get_or, vec_len, slice_index_or};
ghost use Rattle.package.specs.Declares.{contents_of};
ghost use Rattle.rules.specs.Running.{no_procedure, owner_frame, entering, fresh as fresh_of};
ghost use Rattle.running.specs.Parts.{mixing, granting, declared_by};
ghost use Rattle.running.specs.Levels.{above, no_span, behind, onward, entered, body_level, chosen, looped, granted_in, called_in};

use crate::levels::{Closing, Level, Stack, Turns};
use crate::lookups::{frame_of, procedure_at};
use frames::{FrameKind, GrantKind};
use layout::{Procedure, Span};
use package::contents::Contents;
use rules::Context;

// How many blocks lie inside block n.
fn inside_of(blocks: &[Span], n: usize) -> usize
    ensures { result ≡ (get_or blocks.now n no_span).inside }
{
    blocks.get(n).map_or(0, |span| span.inside)
}

// The number of the block behind block n and those inside it.
fn block_behind(blocks: &[Span], n: usize) -> usize
    ensures { result ≡ behind blocks.now n }
{
    n.saturating_add(1).saturating_add(inside_of(blocks, n))
}

// Block n, from `start` to `end`.
fn block(n: usize, start: usize, end: usize, context: Context, closing: Closing) -> Level
    ensures { result ≡ entered n start end context closing }
{
    Level {
        at: start,
        end,
        next: n.saturating_add(1),
        context,
        closing,
    }
}

// Goes on behind a command, where `rest` bytes follow.
pub(crate) fn go_on(level: &mut Level, rest: usize)
    ensures { level.new ≡ onward level.old rest level.old.next }
{
    level.at = level.end.saturating_sub(rest);
}

// Enters a block; the one around it will go on behind the command, where `rest` bytes follow, with the block `next`.
fn enter(level: &mut Level, stack: &mut Stack, inner: Level, rest: usize, next: usize)
    requires { vec_len stack.old.levels < 72 }
    ensures into { level.new ≡ inner }
    ensures around { above stack.new ≡ onward level.old rest next ∷ above stack.old }
{
    stack.push(Level {
        at: level.end.saturating_sub(rest),
        next,
        ..*level
    });
    *level = inner;
}

// One of the two blocks of a choice, `first` and `second` bytes long, under what was told.
pub(crate) fn choose<K: FrameKind>(
    blocks: &[Span],
    level: &mut Level,
    stack: &mut Stack,
    test: bool,
    told: u64,
    first: usize,
    second: usize,
    rest: usize,
)
    requires { vec_len stack.old.levels < 72 }
    ensures { level.new ∷ above stack.new ≡ chosen (mixing K.FrameKind.meaning) blocks.now level.old (above stack.old) test told first second rest }
{
    let one = level.next;
    let other = block_behind(blocks, one);
    let end = level.end.saturating_sub(rest);
    let middle = end.saturating_sub(second);
    let closing = Closing::Choice {
        first: one,
        second: other,
        told,
    };
    let context = Context {
        decisions: K::mix(level.context.decisions, told),
        ..level.context
    };
    let inner = if test {
        block(one, middle.saturating_sub(first), middle, context, closing)
    } else {
        block(other, middle, end, context, closing)
    };
    enter(level, stack, inner, rest, block_behind(blocks, other));
}

// The block of a loop, `turn` bytes long, at its end: its first reading is like every other.
pub(crate) fn repeat<K: FrameKind>(
    blocks: &[Span],
    level: &mut Level,
    stack: &mut Stack,
    place: u8,
    times: u8,
    turn: usize,
    rest: usize,
)
    requires { vec_len stack.old.levels < 72 }
    ensures { level.new ∷ above stack.new ≡ looped (mixing K.FrameKind.meaning) blocks.now level.old (above stack.old) place times turn rest }
{
    let number = level.next;
    let end = level.end.saturating_sub(rest);
    let turns = Turns {
        place,
        block: number,
        start: end.saturating_sub(turn),
        left: times,
        learned: K::full(),
        decisions: level.context.decisions,
    };
    let inner = block(number, end, end, level.context, Closing::Loop(turns));
    enter(level, stack, inner, rest, block_behind(blocks, number));
}

// The block of a grant, `length` bytes long.
pub(crate) fn grant<K: GrantKind>(
    blocks: &[Span],
    level: &mut Level,
    stack: &mut Stack,
    frame: u64,
    length: usize,
    rest: usize,
)
    requires { vec_len stack.old.levels < 72 }
    ensures { level.new ∷ above stack.new ≡ granted_in (granting K.FrameKind.meaning K.GrantKind.widening) blocks.now level.old (above stack.old) frame length rest }
{
    let number = level.next;
    let end = level.end.saturating_sub(rest);
    let context = Context {
        rights: K::widen(level.context.rights, K::mix(frame, level.context.own)),
        ..level.context
    };
    let inner = block(
        number,
        end.saturating_sub(length),
        end,
        context,
        Closing::Nothing,
    );
    enter(level, stack, inner, rest, block_behind(blocks, number));
}

// The body of a procedure.
fn body(procedure: Procedure, context: Context) -> Level
    ensures { result ≡ body_level procedure context }
{
    let end = procedure.start.saturating_add(procedure.length);
    block(
        procedure.block,
        procedure.start,
        end,
        context,
        Closing::Nothing,
    )
}

// The body of a called procedure, which runs for its own party, with the rights in force that its party shares.
pub(crate) fn call<K: FrameKind>(
    contents: &Contents,
    level: &mut Level,
    stack: &mut Stack,
    p: u8,
    rest: usize,
)
    requires { vec_len stack.old.levels < 72 }
    ensures { level.new ∷ above stack.new ≡ called_in (mixing K.FrameKind.meaning) (contents_of contents.now) level.old (above stack.old) p rest }
{
    let procedure = procedure_at(&contents.procedures, p);
    let own = frame_of(&contents.parties, procedure.party);
    let context = Context {
        procedure: p,
        own,
        rights: K::mix(level.context.rights, own),
        ..level.context
    };
    let inner = body(procedure, context);
    let next = level.next;
    enter(level, stack, inner, rest, next);
}

// The body of an entry, which runs with all the rights of its party, before any decision.
pub(crate) fn entry<K: FrameKind>(contents: &Contents, p: u8) -> Level
    ensures { result ≡ body_level (slice_index_or (contents_of contents.now).procedures p no_procedure) (fresh_of (mixing K.FrameKind.meaning) (declared_by contents.now) p) }
{
    let procedure = procedure_at(&contents.procedures, p);
    let own = frame_of(&contents.parties, procedure.party);
    let context = Context {
        procedure: p,
        own,
        rights: own,
        decisions: K::full(),
    };
    body(procedure, context)
}
