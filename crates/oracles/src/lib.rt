// Write oracles: which places a block may write.
#![tactic(auto)]

ghost use Rattle.std.specs.Prelude.{◌≡◌, ℕ, IfOk};
ghost use Rattle.layout.specs.Program.{Program, program};
ghost use Rattle.package.specs.Loads.{tree_of};
ghost use Rattle.oracle_laws.specs.Sets.{Sets, OracleLaws};
ghost use Rattle.oracles.specs.Answers.{NamesSmallest};

use package::held::Package;
use std::alloc::{AllocError, Global};

pub mod broad;
pub mod walking;

// An oracle is prepared for a package, and then names places for each of its blocks. For a block, and of places, that
// the package lacks, it names none. A question changes nothing.
pub trait WriteOracle: Sized {
    // The places that are named for each block, fixed by the package.
    ghost sets: { Program → Sets };

    // What a prepared oracle answers.
    ghost answers: { Self → Sets };

    fn prepare(heap: Global, held: &Package) -> Result<Self, AllocError>
        ensures { IfOk result (λ o. (n x : ℕ) → answers o n x ≡ sets (program (tree_of held.now)) n x) };

    // Whether the place is named for the block.
    fn names(&self, block: usize, place: u8) -> bool
        ensures { result ≡ answers self.now block place };

    ghost lawful: { OracleLaws sets };
}

// What the walking oracle names, every oracle names.
pub fn walking_smallest<O: WriteOracle>()
    ensures { NamesSmallest O.WriteOracle.sets }
{}
