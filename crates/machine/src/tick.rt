// A tick.
ghost use Rattle.std.specs.Prelude.{◌≡◌, ℕ, ◌+◌, ◌<◌, ◌≤◌, ◌&&◌, if◌then◌else◌, nat_eq, nat_lt, slice_index};
ghost use Rattle.plans.specs.Pipeline.{atom_stage, setting_of, made_at, stage_work, pipeline_of};
ghost use Rattle.book.specs.Calls.Call.{Tick};
ghost use Rattle.book.specs.Calls.Outcome.{done};
ghost use Rattle.machine.specs.Faults.{answered};
ghost use Rattle.machine.specs.Held.{contents};
ghost use Rattle.machine.specs.Did.{Did};
ghost use Rattle.machine.specs.Moved.{SameCircuit, Passed, Moved};

use crate::fault::MachineFault;
use crate::machine::Machine;
use atoms::Atom;
use resolving::Packet;
use std::array;
use word::{at, put};

// What a packet meets at a stage.
#[derive(Clone, Copy)]
struct Visit<'a> {
    // the row that it carries there
    carried: &'a Packet,
    // the words as they stood before the tick
    stood: &'a [u32],
}

impl<A: Atom> Machine<A> {
    // What the node at n makes.
    fn make(&self, n: usize, visit: Visit) -> u32
        ensures { result ≡ made_at A.Arith.Arithmetic.plus A.Arith.Arithmetic.minus self.now.plan visit.entry.carried.now visit.entry.stood.now n }
    {
        let line = self.plan.placement.codelets.lines.line(n);
        line.make::<A::Arith>(&visit.carried.fields, visit.stood, &visit.carried.lines)
    }

    // Stage k's work on a packet: what each of its nodes makes.
    fn work(&self, k: usize, visit: Visit) -> Packet
        requires { k < 33 }
        ensures { result ≡ stage_work A.Arith.Arithmetic.plus A.Arith.Arithmetic.minus self.now.plan k visit.entry.carried.now visit.entry.stood.now }
    {
        let mut lines = visit.carried.lines;
        for n in self.schedule.nodes(k) {
            put(&mut lines, n, self.make(n, visit));
        }
        Packet {
            fields: visit.carried.fields,
            lines,
        }
    }

    // A state's new word.
    fn run(&self, s: usize, visit: Visit) -> u32
        requires { s < 8 }
        ensures { result ≡ A.Atom.ran (setting_of self.now.plan s) (slice_index visit.entry.stood.now s) visit.entry.carried.now }
    {
        let setting = &self.plan.settings[s];
        self.atom.run(setting, at(visit.stood, s, 0), visit.carried)
    }

    // State s's word after stage k's work: new where its atom is stage k's.
    fn word_after(&self, k: usize, s: usize, visit: Visit) -> u32
        requires { s < 8 }
        ensures { result ≡ (if nat_lt s self.now.plan.transaction.states && nat_eq (atom_stage self.now.plan s) k then A.Atom.ran (setting_of self.now.plan s) (slice_index visit.entry.stood.now s) visit.entry.carried.now else slice_index self.now.held.words s) }
    {
        if s < self.plan.transaction.states as usize && self.atom_stage(s) == k {
            self.run(s, visit)
        } else {
            self.held.words[s]
        }
    }

    // The words, with those of stage k's atoms new.
    fn words_after(&self, k: usize, visit: Visit) -> [u32; 8]
        ensures runs { (s : ℕ) → s < self.now.plan.transaction.states → slice_index result s ≡ (if nat_eq (atom_stage self.now.plan s) k then A.Atom.ran (setting_of self.now.plan s) (slice_index visit.entry.stood.now s) visit.entry.carried.now else slice_index self.now.held.words s) }
        ensures rests { (s : ℕ) → self.now.plan.transaction.states ≤ s → slice_index result s ≡ slice_index self.now.held.words s }
    {
        array::from_fn(|s| self.word_after(k, s, visit))
    }

    // Stage q + 1 on the packet of this number at place q, which reaches the place behind the stage.
    fn pass(&mut self, q: usize, number: u32, stood: &[u32])
        requires { q < 32 }
        ensures passed { Passed (pipeline_of A.Arith.Arithmetic.plus A.Arith.Arithmetic.minus A.Atom.ran self.old.plan) stood.now q (q + 1) number (contents self.old) (contents self.new) }
        ensures same { SameCircuit self.old self.new }
    {
        let carried = self.held.rows[q];
        let visit = Visit {
            carried: &carried,
            stood,
        };
        let worked = self.work(q + 1, visit);
        self.held.words = self.words_after(q + 1, visit);
        put(&mut self.held.rows, q + 1, worked);
        put(&mut self.held.counts, q + 1, number);
    }

    // Moves what stands at place q one place on.
    fn advance(&mut self, q: usize, stood: &[u32])
        requires { q < 32 }
        ensures moved { Moved (pipeline_of A.Arith.Arithmetic.plus A.Arith.Arithmetic.minus A.Atom.ran self.old.plan) stood.now q (q + 1) (contents self.old) (contents self.new) }
        ensures same { SameCircuit self.old self.new }
    {
        let packet = at(&self.held.places, q, None);
        put(&mut self.held.places, q + 1, packet);
        if let Some(number) = packet {
            self.pass(q, number, stood);
        }
    }

    // Moves every packet one place on, the one nearest to the exit first.
    // The loop goes by number, since a packet moves between two places of each table.
    pub fn tick(&mut self) -> Result<(), MachineFault>
        ensures { Did A.Arith.Arithmetic.plus A.Arith.Arithmetic.minus A.Atom.ran Tick (answered (λ _. done) result) self.old self.new }
    {
        let exit = self.plan.placement.stages.count;
        if at(&self.held.places, exit, None).is_some() {
            return Err(MachineFault::ExitFull(exit));
        }
        let stood = self.held.words;
        for q in (0..exit).rev() {
            self.advance(q, &stood);
        }
        put(&mut self.held.places, 0, None);
        Ok(())
    }
}
