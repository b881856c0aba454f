// The atom that reads and writes.
ghost use Rattle.atoms.specs.Kinds.{read_write_takes, read_write_ran};
ghost use Rattle.std.proofs.Common.{rules};

use crate::atom::Atom;
use crate::fitting::fit_operation;
use resolving::{Operation, Packet, Update};
use settings::read_operation;
use word::Arithmetic;

// Keeps the old word or replaces it by another leaf; holds the arithmetic that it works in.
#[derive(Clone, Copy)]
pub struct ReadWrite<M>(pub M);

impl<M: Arithmetic> Atom for ReadWrite<M> {
    type Arith = M;

    ghost len = { 3 };

    ghost takes = { read_write_takes };

    ghost ran = { read_write_ran };

    ghost lengths = { Prim.search rules };

    fn length(&self) -> u32 {
        3
    }

    fn class(&self, update: &Update) -> bool {
        let resolved = update.codelet.resolve(&update.decided);
        update.codelet.is_leaf(resolved.of(update.source))
    }

    fn fit(&self, update: &Update, buffer: &mut [u32]) -> bool {
        fit_operation(update, buffer, |o| matches!(o, Operation::Set(_)))
    }

    fn run(&self, setting: &[u32], old: u32, packet: &Packet) -> u32 {
        let (Operation::Set(v) | Operation::Add(v) | Operation::Subtract(v)) = read_operation(
            setting,
        );
        v.value(old, packet)
    }
}
