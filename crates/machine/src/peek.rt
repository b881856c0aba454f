// What a machine tells of its states.
ghost use Rattle.std.specs.Prelude.{◌≡◌, Ok, Err};
ghost use Rattle.plans.specs.Pipeline.{atom_stage};
ghost use Rattle.book.specs.Calls.{peeking};
ghost use Rattle.book.specs.Calls.Call.{Peek};
ghost use Rattle.book.specs.Calls.Outcome.{word};
ghost use Rattle.book.specs.Pipeline.{count_at, word_of};
ghost use Rattle.machine.specs.Faults.{answered};
ghost use Rattle.machine.specs.Held.{contents};
ghost use Rattle.machine.specs.Did.{Did};

use crate::fault::MachineFault;
use crate::machine::Machine;
use atoms::Atom;
use word::at;

impl<A: Atom> Machine<A> {
    // The stage of a state's atom, 0 where no statement names the state.
    pub(crate) fn atom_stage(&self, s: usize) -> usize
        ensures { result ≡ atom_stage self.now.plan s }
    {
        if at(&self.plan.placement.codelets.lines.named, s, false) {
            let read = at(&self.plan.placement.codelets.lines.reads, s, 0);
            at(&self.plan.placement.stages.stage_of, read, 0)
        } else {
            0
        }
    }

    // What a state's peek tells.
    fn glance(&self, s: usize) -> Result<(u32, u32), MachineFault>
        ensures { answered (λ p. word p.0 p.1) result ≡ peeking self.now.plan.transaction.states s (word_of (contents self.now) s) (count_at (contents self.now) (atom_stage self.now.plan s)) }
    {
        if s >= self.plan.transaction.states as usize {
            return Err(MachineFault::NoState(s));
        }
        let stage = self.atom_stage(s);
        Ok((at(&self.held.words, s, 0), at(&self.held.counts, stage, 0)))
    }

    // A state's word, and how many packets have reached its atom.
    pub fn peek(&self, s: usize) -> Result<(u32, u32), MachineFault>
        ensures { Did A.Arith.Arithmetic.plus A.Arith.Arithmetic.minus A.Atom.ran (Peek s) (answered (λ p. word p.0 p.1) result) self.now self.now }
    {
        self.glance(s)
    }
}
