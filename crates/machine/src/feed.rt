// What enters a machine.
ghost use Rattle.std.specs.Prelude.{◌≡◌, suc, is_some, IfOk};
ghost use Rattle.plans.specs.Pipeline.{entered as enteredWith};
ghost use Rattle.book.specs.Calls.{feeding};
ghost use Rattle.book.specs.Calls.Call.{Feed};
ghost use Rattle.book.specs.Calls.Outcome.{done, packet};
ghost use Rattle.book.specs.Pipeline.{packet_at, count_at};
ghost use Rattle.machine.specs.Faults.{answered};
ghost use Rattle.machine.specs.Held.{contents};
ghost use Rattle.machine.specs.Did.{Did};

use crate::fault::MachineFault;
use crate::machine::Machine;
use atoms::Atom;
use resolving::Packet;
use std::array;
use word::{at, put};

// What a packet of these fields carries at the entry.
fn entered(fields: &[u32]) -> Packet
    ensures { result ≡ enteredWith fields.now }
{
    Packet {
        fields: array::from_fn(|i| at(fields, i, 0)),
        lines: [0; 208],
    }
}

impl<A: Atom> Machine<A> {
    // The number of the packet that enters with so many fields.
    fn next_number(&self, fields: usize) -> Result<u32, MachineFault>
        ensures answer { answered (λ _. done) result ≡ feeding self.now.plan.transaction.fields fields (count_at (contents self.now) 0) (is_some (packet_at (contents self.now) 0)) }
        ensures number { IfOk result (λ n. n ≡ suc (count_at (contents self.now) 0)) }
    {
        if fields != self.plan.transaction.fields as usize {
            return Err(MachineFault::Length(fields));
        }
        let fed = at(&self.held.counts, 0, 0);
        let number = fed.checked_add(1).ok_or(MachineFault::Exhausted)?;
        if at(&self.held.places, 0, None).is_some() {
            return Err(MachineFault::EntryFull);
        }
        Ok(number)
    }

    // Enters the next packet, of these fields.
    pub fn feed(&mut self, fields: &[u32]) -> Result<(), MachineFault>
        ensures { Did A.Arith.Arithmetic.plus A.Arith.Arithmetic.minus A.Atom.ran (Feed fields.now) (answered (λ _. done) result) self.old self.new }
    {
        let number = self.next_number(fields.len())?;
        let row = entered(fields);
        put(&mut self.held.places, 0, Some(number));
        put(&mut self.held.rows, 0, row);
        put(&mut self.held.counts, 0, number);
        Ok(())
    }
}
