// The atom that adds and subtracts.
ghost use Rattle.atoms.specs.Kinds.{subtract_takes, subtract_ran};
ghost use Rattle.std.proofs.Common.{rules};

use crate::atom::Atom;
use crate::fitting::fit_operation;
use resolving::{Operation, Packet, Update};
use settings::read_operation;
use word::Arithmetic;

// Does what Add does, and subtracts a leaf other than the old word from it; holds the arithmetic that it works in.
#[derive(Clone, Copy)]
pub struct Subtract<M>(pub M);

impl<M: Arithmetic> Atom for Subtract<M> {
    type Arith = M;

    ghost len = { 3 };

    ghost takes = { subtract_takes };

    ghost ran = { subtract_ran M.Arithmetic.plus M.Arithmetic.minus };

    ghost lengths = { Prim.search rules };

    fn length(&self) -> u32 {
        3
    }

    fn class(&self, update: &Update) -> bool {
        update.operation().is_some()
    }

    fn fit(&self, update: &Update, buffer: &mut [u32]) -> bool {
        fit_operation(update, buffer, |_| true)
    }

    fn run(&self, setting: &[u32], old: u32, packet: &Packet) -> u32 {
        match read_operation(setting) {
            Operation::Set(v) => v.value(old, packet),
            Operation::Add(v) => M::sum(old, v.value(old, packet)),
            Operation::Subtract(v) => M::difference(old, v.value(old, packet)),
        }
    }
}
