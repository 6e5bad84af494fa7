// Lists of calls.
ghost use Rattle.std.specs.Prelude.{◌≡◌, ℕ, ◌<◌, List, IfOk, OnOk, OnErr, vec_items};
ghost use Rattle.rules.specs.declared.Call.{Call as Called};
ghost use Rattle.rules.specs.Calls.{new as new_of, answer_to, after, answers as answers_of, after_all};
ghost use Rattle.rules.specs.Agreement.{remaining, seen};
ghost use Rattle.running.specs.States.{held_of};
ghost use Rattle.controller.specs.Holding.{says, built};

use crate::controller::Controller;
use frames::{FrameKind, GrantKind};
use oracles::WriteOracle;
use rules::{Answer, Call};
use running::assembly::Assembly;
use running::places::Work;
use std::alloc::{AllocError, Global};

impl<A: Assembly> Controller<A> {
    // One call of a list.
    fn answer(&mut self, call: Call) -> Answer
        ensures answer { result ≡ answer_to (built A.Kind.meaning A.Kind.widening A.Oracle.sets self.old.held) (says self.old.held) call (held_of self.old.work) }
        ensures holds { held_of self.new.work ≡ after (built A.Kind.meaning A.Kind.widening A.Oracle.sets self.old.held) (says self.old.held) call (held_of self.old.work) }
        ensures keeps { (self.new.held ≡ self.old.held) × (self.new.oracle ≡ self.old.oracle) }
    {
        match call {
            Call::Post {
                party,
                place,
                value,
            } => Answer::Post(self.post(party, place, value)),
            Call::Cycle => Answer::Cycle(self.cycle()),
            Call::Read { place, right } => Answer::Read(self.read(place, right)),
            Call::Show { device } => Answer::Show(self.show(device)),
        }
    }

    // Makes the controller new, with the package that it holds, and runs a list of calls on it.
    // Of every other list that is the same once the posts of parties without right q are struck out of both: the devices
    // that need q show the same when new and after each call that remains, and each read in the name of q answers the same.
    pub fn replay(&mut self, heap: Global, calls: &[Call]) -> Result<Vec<Answer>, AllocError>
        ensures answers { IfOk result (λ v. v.items ≡ answers_of (built A.Kind.meaning A.Kind.widening A.Oracle.sets self.old.held) (says self.old.held) calls.now (new_of (says self.old.held))) }
        ensures holds { OnOk result (held_of self.new.work ≡ after_all (built A.Kind.meaning A.Kind.widening A.Oracle.sets self.old.held) (says self.old.held) calls.now (new_of (says self.old.held))) }
        ensures agreement { (q : ℕ) → q < 64 → (others : List Called) → remaining (built A.Kind.meaning A.Kind.widening A.Oracle.sets self.old.held) (says self.old.held) q calls.now ≡ remaining (built A.Kind.meaning A.Kind.widening A.Oracle.sets self.old.held) (says self.old.held) q others → seen (built A.Kind.meaning A.Kind.widening A.Oracle.sets self.old.held) (says self.old.held) q calls.now ≡ seen (built A.Kind.meaning A.Kind.widening A.Oracle.sets self.old.held) (says self.old.held) q others }
        ensures keeps { (self.new.held ≡ self.old.held) × (self.new.oracle ≡ self.old.oracle) }
        ensures memory { OnErr result (self.new ≡ self.old) }
    {
        let mut answers = Vec::with_capacity(heap, calls.len())?;
        let work = Work::new(heap, &self.held)?;
        self.work = work;
        for call in calls {
            answers.push_reserved(self.answer(*call));
        }
        Ok(answers)
    }
}
