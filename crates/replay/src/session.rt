// Calls on one machine, answered line by line.
ghost use Rattle.std.specs.Prelude.{◌≡◌, ◌≢◌, ℕ, take, false, OnOk, Result, [], ◌∷◌};
ghost use Rattle.std.specs.Io.KnownBytes.{Appends};
ghost use Rattle.machine.specs.declared.fault.MachineFault.{MachineFault};
ghost use Rattle.machine.specs.Faults.{answered};
ghost use Rattle.machine.specs.Did.{Did};
ghost use Rattle.book.specs.Calls.Call.{Feed, Tick, Peek};
ghost use Rattle.book.specs.Calls.Outcome.{done, word};
ghost use Rattle.replay.specs.Answered.{done_line, word_line};
ghost use Rattle.text.specs.Bytes.{First};
ghost use Rattle.replay.specs.Named.{call_name};
ghost use Rattle.transaction.specs.Programs.{program_of};
ghost use Rattle.book.specs.Agrees.{Fresh};
ghost use Rattle.plans.specs.Idle.{idle_program};
ghost use Rattle.plans.specs.Pipeline.{pipeline_of};
ghost use Rattle.machine.specs.Held.{contents};

use crate::call::Call;
use answering::{Spaced, answer_fault};
use atoms::Atom;
use machine::Machine;
use std::alloc::Global;
use std::io;
use std::io::Write;
use text::{TextFault, decode_request, decode_words, word_end};
use transaction::Refusal;

// The longest buffer that a take is made with.
const LONGEST: u32 = 65536;

#[derive(Drop)]
pub struct Session<A> {
    heap: Global,
    machine: Machine<A>,
    // whether the places are drawn after each tick
    trace: bool,
    // the image and the numbers of a line
    image: Vec<u8>,
    numbers: Vec<u32>,
}

impl<A: Atom + Drop> Session<A> {
    // The machine was never started.
    pub fn new(heap: Global, atom: A, trace: bool) -> Session<A>
        ensures fresh { Fresh (pipeline_of A.Arith.Arithmetic.plus A.Arith.Arithmetic.minus A.Atom.ran result.machine.plan) (contents result.machine) }
        ensures program { program_of result.machine.plan.transaction ≡ idle_program }
        ensures atom { result.machine.atom ≡ atom }
        ensures trace { result.trace ≡ trace }
    {
        Session {
            heap,
            machine: Machine::new(atom),
            trace,
            image: Vec::new(heap),
            numbers: Vec::new(heap),
        }
    }

    // Answers one line. One whose first word names no call changes nothing in the machine.
    pub fn answer<W: Write>(&mut self, line: &[u8], out: &mut W) -> anyhow::Result<()>
        ensures { (end : ℕ) × First 32 line.now 0 end × (((call : Call) → take end line.now ≢ call_name call) → self.new.machine ≡ self.old.machine) }
    {
        let (name, rest) = line.split_at(word_end(line));
        let call = Call::named(name);
        if let Err(fault) = self.decode(call, rest) {
            return answer_fault(out, fault.behind(name.len()));
        }
        match call {
            Some(Call::Start) => self.start(out)?,
            Some(Call::Feed) => self.feed(out)?,
            Some(Call::Tick) => self.tick(out)?,
            Some(Call::Take) => self.take(out)?,
            Some(Call::Peek) => self.peek(out)?,
            None => writeln!(out, "malformed: no such call")?,
        }
        Ok(())
    }

    // Decodes what stands behind the name of a call: numbers, and for a start an image before them.
    fn decode(&mut self, call: Option<Call>, rest: &[u8]) -> Result<(), TextFault>
        ensures { self.new.machine ≡ self.old.machine }
    {
        match (call, rest) {
            (Some(Call::Start), [_blank, request @ ..]) => {
                decode_request(request, &mut self.image, &mut self.numbers).map_err(
                    |fault| fault.behind(1),
                )
            }
            _ => decode_words(rest, &mut self.numbers),
        }
    }

    fn start<W: Write>(&mut self, out: &mut W) -> io::Result<()> {
        let [d, p, q] = self.numbers.as_slice() else {
            return writeln!(out, "malformed: an image and three limits are wanted");
        };
        match self.machine.start(&self.image, *d, *p, *q) {
            Ok(()) => writeln!(out, "accepted {}", self.machine.depth()),
            Err(fault) => writeln!(out, "{}", Refusal::from(fault)),
        }
    }

    // Feeds the numbers of the line, and tells the machine's answer.
    fn feed<W: Write>(&mut self, out: &mut W) -> io::Result<()>
        ensures { (r : Result (Unit {0}) MachineFault) × Did A.Arith.Arithmetic.plus A.Arith.Arithmetic.minus A.Atom.ran (Feed self.old.numbers.items) (answered (λ _. done) r) self.old.machine self.new.machine × OnOk result (Appends (W.contents out.old) (W.contents out.new) (done_line r)) }
    {
        match self.machine.feed(&self.numbers) {
            Ok(()) => writeln!(out, "ok"),
            Err(fault) => writeln!(out, "{}", Refusal::from(fault)),
        }
    }

    // Ticks, where the line has no number, and tells the machine's answer.
    fn tick<W: Write>(&mut self, out: &mut W) -> io::Result<()>
        ensures numbered { self.old.numbers.items ≢ [] → self.new.machine ≡ self.old.machine }
        ensures told { self.old.numbers.items ≡ [] → (r : Result (Unit {0}) MachineFault) × Did A.Arith.Arithmetic.plus A.Arith.Arithmetic.minus A.Atom.ran Tick (answered (λ _. done) r) self.old.machine self.new.machine × (self.old.trace ≡ false → OnOk result (Appends (W.contents out.old) (W.contents out.new) (done_line r))) }
    {
        if !self.numbers.is_empty() {
            return writeln!(out, "malformed: a tick takes no number");
        }
        match self.machine.tick() {
            Ok(()) => {
                writeln!(out, "ok")?;
                if self.trace { self.draw(out) } else { Ok(()) }
            }
            Err(fault) => writeln!(out, "{}", Refusal::from(fault)),
        }
    }

    // Which packet stands at which place, from the entry to the exit.
    fn draw<W: Write>(&self, out: &mut W) -> io::Result<()> {
        write!(out, "places")?;
        for place in 0..=self.machine.depth() {
            match self.machine.packet_at(place) {
                Some(number) => write!(out, " {number}")?,
                None => write!(out, " -")?,
            }
        }
        writeln!(out, "")
    }

    // The length of the buffer to take into: what the line says, or a packet's number of fields.
    fn buffer_length(&self) -> Option<usize> {
        match self.numbers.as_slice() {
            [] => Some(self.machine.fields()),
            [n] if *n <= LONGEST => Some(*n as usize),
            _ => None,
        }
    }

    fn take<W: Write>(&mut self, out: &mut W) -> anyhow::Result<()> {
        let Some(length) = self.buffer_length() else {
            writeln!(out, "malformed: a take takes one number, at most {LONGEST}")?;
            return Ok(());
        };
        let mut fields = vec![in self.heap; 0u32; length]?;
        match self.machine.take(&mut fields) {
            Ok(()) => writeln!(out, "packet{}", Spaced(&fields))?,
            Err(fault) => writeln!(out, "{}", Refusal::from(fault))?,
        }
        Ok(())
    }

    // Peeks at the state of the line, and tells the machine's answer.
    fn peek<W: Write>(&mut self, out: &mut W) -> io::Result<()>
        ensures same { self.new.machine ≡ self.old.machine }
        ensures told { (s : ℕ) → self.old.numbers.items ≡ s ∷ [] → (r : Result (ℕ × ℕ) MachineFault) × Did A.Arith.Arithmetic.plus A.Arith.Arithmetic.minus A.Atom.ran (Peek s) (answered (λ p. word p.0 p.1) r) self.old.machine self.old.machine × OnOk result (Appends (W.contents out.old) (W.contents out.new) (word_line r)) }
    {
        let [s] = self.numbers.as_slice() else {
            return writeln!(out, "malformed: a peek takes one number");
        };
        match self.machine.peek(*s as usize) {
            Ok((word, count)) => writeln!(out, "word {word} count {count}"),
            Err(fault) => writeln!(out, "{}", Refusal::from(fault)),
        }
    }
}
