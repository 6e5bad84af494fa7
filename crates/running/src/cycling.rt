// A cycle: the entries of a package, one after the other.
ghost use Rattle.std.specs.Prelude.{◌≡◌, ℕ, ◌+◌, ◌<◌};
ghost use Rattle.rules.specs.Calls.{cycle as cycle_of};
ghost use Rattle.running.specs.States.{state_of, held_of};
ghost use Rattle.running.specs.Parts.{assembled};
ghost use Rattle.running.specs.Entries.{program_of, entry_run, CanRun};

use crate::assembly::Assembly;
use crate::entering::entry;
use crate::levels::Stack;
use crate::places::Work;
use crate::stepping::step;
use frames::{FrameKind, GrantKind};
use oracles::WriteOracle;
use package::held::Package;

// Runs the body of an entry.
fn run_entry<A: Assembly>(
    held: &Package,
    oracle: &A::Oracle,
    stack: &mut Stack,
    work: &mut Work,
    p: u8,
)
    requires { CanRun (assembled A.Kind.FrameKind.meaning A.Kind.GrantKind.widening (A.Oracle.WriteOracle.answers oracle.now)) (program_of held.now) p (state_of work.old) }
    ensures { state_of work.new ≡ entry_run (assembled A.Kind.FrameKind.meaning A.Kind.GrantKind.widening (A.Oracle.WriteOracle.answers oracle.now)) (program_of held.now) p (state_of work.old) }
{
    stack.clear();
    let mut level = entry::<A::Kind>(held.contents(), p);
    while step::<A>(held, oracle, &mut level, stack, work) {}
}

// Runs the entries of a package in order, from no steps, no refused drives and no trail.
pub fn run_cycle<A: Assembly>(
    held: &Package,
    oracle: &A::Oracle,
    stack: &mut Stack,
    work: &mut Work,
)
    ensures { state_of work.new ≡ cycle_of (assembled A.Kind.FrameKind.meaning A.Kind.GrantKind.widening (A.Oracle.WriteOracle.answers oracle.now)) (program_of held.now) (held_of work.old) }
{
    work.steps = 0;
    work.refused = 0;
    work.trail = None;
    for p in &held.contents().entries {
        work.tick();
        run_entry::<A>(held, oracle, stack, work, *p);
    }
}
