// What leaves a machine.
ghost use Rattle.std.specs.Prelude.{◌≡◌, length, is_some, IfOk};
ghost use Rattle.plans.specs.Pipeline.{leaving_with, row_at};
ghost use Rattle.book.specs.Calls.{taking};
ghost use Rattle.book.specs.Calls.Call.{Take};
ghost use Rattle.book.specs.Calls.Outcome.{packet};
ghost use Rattle.book.specs.Pipeline.{packet_at};
ghost use Rattle.machine.specs.Faults.{answered};
ghost use Rattle.machine.specs.Held.{contents};
ghost use Rattle.machine.specs.Did.{Did, Spared};

use crate::fault::MachineFault;
use crate::machine::Machine;
use atoms::Atom;
use lines::Source;
use resolving::Packet;
use word::{at, put};

impl<A: Atom> Machine<A> {
    // The row of the packet that leaves into a buffer of this length.
    fn leaving(&self, fields: usize) -> Result<Packet, MachineFault>
        ensures answer { answered (λ row. packet (leaving_with self.now.plan row)) result ≡ taking self.now.plan.transaction.fields fields self.now.plan.placement.stages.count (is_some (packet_at (contents self.now) self.now.plan.placement.stages.count)) (leaving_with self.now.plan (row_at (contents self.now) self.now.plan.placement.stages.count)) }
        ensures long { IfOk result (λ _. fields ≡ self.now.plan.transaction.fields) }
    {
        if fields != self.plan.transaction.fields as usize {
            return Err(MachineFault::Length(fields));
        }
        let exit = self.plan.placement.stages.count;
        if at(&self.held.places, exit, None).is_none() {
            return Err(MachineFault::ExitEmpty(exit));
        }
        Ok(self.held.rows[exit])
    }

    // Writes the final values of the fields of a packet that carries this row.
    fn write_finals(&self, row: &Packet, out: &mut [u32])
        ensures { length out.old ≡ self.now.plan.transaction.fields → out.new ≡ leaving_with self.now.plan row.now }
    {
        let finals = &self.plan.placement.codelets.lines.finals;
        for (i, word) in out.iter_mut().enumerate() {
            let last = at(finals, i, Source::Constant(0));
            *word = last.value(&row.fields, &row.lines);
        }
    }

    // Lets the packet at the exit leave.
    pub fn take(&mut self, out: &mut [u32]) -> Result<(), MachineFault>
        ensures did { Did A.Arith.Arithmetic.plus A.Arith.Arithmetic.minus A.Atom.ran (Take (length out.old)) (answered (λ _. packet out.new) result) self.old self.new }
        ensures spared { Spared result out.old out.new }
    {
        let row = self.leaving(out.len())?;
        self.write_finals(&row, out);
        let exit = self.plan.placement.stages.count;
        put(&mut self.held.places, exit, None);
        Ok(())
    }
}
