// What a controller holds.
ghost use Rattle.controller.specs.Holding.{Serves};

use oracles::WriteOracle;
use package::held::Package;
use running::assembly::Assembly;
use running::levels::Stack;
use running::places::Work;

// The package, the oracle that was prepared with it, places and devices, and a stack for the cycles.
#[derive(Drop)]
pub struct Controller<A: Assembly> {
    pub(crate) held: Package,
    pub(crate) oracle: A::Oracle,
    pub(crate) work: Work,
    pub(crate) stack: Stack,
    ghost serves: { Serves (A.Oracle.answers oracle) A.Oracle.sets held },
}
