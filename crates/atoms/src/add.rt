// The atom that adds.
ghost use Rattle.atoms.specs.Kinds.{add_takes, add_ran};
ghost use Rattle.std.proofs.Common.{rules};

use crate::atom::Atom;
use crate::fitting::fit_operation;
use resolving::{Operation, Packet, Update};
use settings::read_operation;
use word::Arithmetic;

// Does what ReadWrite does, and adds a leaf other than the old word to it; holds the arithmetic that it works in.
#[derive(Clone, Copy)]
pub struct Add<M>(pub M);

impl<M: Arithmetic> Atom for Add<M> {
    type Arith = M;

    ghost len = { 3 };

    ghost takes = { add_takes };

    ghost ran = { add_ran M.Arithmetic.plus };

    ghost lengths = { Prim.search rules };

    fn length(&self) -> u32 {
        3
    }

    fn class(&self, update: &Update) -> bool {
        matches!(
            update.operation(),
            Some(Operation::Set(_) | Operation::Add(_))
        )
    }

    fn fit(&self, update: &Update, buffer: &mut [u32]) -> bool {
        fit_operation(
            update,
            buffer,
            |o| matches!(o, Operation::Set(_) | Operation::Add(_)),
        )
    }

    fn run(&self, setting: &[u32], old: u32, packet: &Packet) -> u32 {
        match read_operation(setting) {
            Operation::Set(v) | Operation::Subtract(v) => v.value(old, packet),
            Operation::Add(v) => M::sum(old, v.value(old, packet)),
        }
    }
}
