// Controllers are made, and made new.
ghost use Rattle.std.specs.Prelude.{◌≡◌, ◌∷◌, [], IfOk, IfErr, OnOk, OnErr, length, vec_items};
ghost use Rattle.package.specs.declared.refusal.Refusal.TheVariants.{Memory};
ghost use Rattle.rules.specs.Calls.{new as new_of};
ghost use Rattle.running.specs.States.{held_of};
ghost use Rattle.controller.specs.Holding.{says, Answered, IsNew};

use crate::controller::Controller;
use oracles::WriteOracle;
use package::held::Package;
use package::load;
use package::refusal::Refusal;
use running::assembly::Assembly;
use running::levels::Stack;
use running::places::Work;
use std::alloc::{AllocError, Global};

// The package of FINISH alone.
const BARE: [u8; 1] = [0x88];

impl<A: Assembly> Controller<A> {
    // A new controller of a package, with all the memory that its cycles will need.
    fn of(heap: Global, held: Package) -> Result<Controller<A>, AllocError>
        ensures { IfOk result (λ c. (c.held ≡ held) × (held_of c.work ≡ new_of (says held))) }
    {
        let oracle = A::Oracle::prepare(heap, &held)?;
        let work = Work::new(heap, &held)?;
        let stack = Stack::new(heap)?;
        Ok(Controller {
            held,
            oracle,
            work,
            stack,
        })
    }

    // A new controller of the package of FINISH alone.
    pub fn new(heap: Global) -> Result<Controller<A>, Refusal>
        ensures holds { IfOk result (λ c. IsNew (0x88 ∷ []) c.held (held_of c.work)) }
        ensures memory { IfErr result (λ e. e ≡ Memory) }
    {
        let held = load(heap, &BARE)?;
        Ok(Controller::of(heap, held)?)
    }

    // Takes a package, and makes the controller new; one that is refused leaves all as it was.
    pub fn load(&mut self, heap: Global, bytes: &[u8]) -> Result<usize, Refusal>
        ensures answer { Answered bytes.now result }
        ensures holds { OnOk result (IsNew bytes.now self.new.held (held_of self.new.work)) }
        ensures refused { OnErr result (self.new ≡ self.old) }
    {
        let held = load(heap, bytes)?;
        let made = Controller::of(heap, held)?;
        *self = made;
        Ok(bytes.len())
    }
}
