// Calls, one after another.
ghost use Rattle.std.specs.Prelude.{◌≡◌};
ghost use Rattle.plans.specs.Pipeline.{pipeline_of};
ghost use Rattle.machine.specs.Held.{contents};
ghost use Rattle.machine.specs.Did.{Did};
ghost use Rattle.machine.specs.Moved.{SameCircuit};
ghost use Rattle.calls.specs.Asking.{call_in, answer_in, Spares};
ghost use Rattle.calls.specs.Runs.{Run};

use crate::call::{Asked, Call, Reply};
use atoms::Atom;
use machine::Machine;

// Makes a call and puts its answer beside it.
fn ask<A: Atom>(machine: &mut Machine<A>, asked: &mut Asked)
    ensures did { Did A.Arith.Arithmetic.plus A.Arith.Arithmetic.minus A.Atom.ran (call_in asked.old) (answer_in asked.new) machine.old machine.new }
    ensures call { call_in asked.new ≡ call_in asked.old }
    ensures spares { Spares asked.new.answer asked.old.call asked.new.call }
{
    match &mut asked.call {
        Call::Feed(fields) => asked.answer = machine.feed(fields).map(|()| Reply::Done),
        Call::Tick => asked.answer = machine.tick().map(|()| Reply::Done),
        Call::Take(out) => asked.answer = machine.take(out).map(|()| Reply::Done),
        Call::Peek(s) => {
            asked.answer = machine
                .peek(*s)
                .map(|(word, count)| Reply::Shown(word, count));
        }
    }
}

// Makes the calls of a list, one after another, and puts each answer beside its call.
pub fn run_calls<A: Atom>(machine: &mut Machine<A>, asked: &mut [Asked])
    ensures run { Run (pipeline_of A.Arith.Arithmetic.plus A.Arith.Arithmetic.minus A.Atom.ran machine.old.plan) asked.old asked.new (contents machine.old) (contents machine.new) }
    ensures same { SameCircuit machine.old machine.new }
{
    for one in asked.iter_mut() {
        ask(machine, one);
    }
}
