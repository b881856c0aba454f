// A machine from its start through a list of calls.
ghost use Rattle.std.specs.Prelude.{◌≡◌, Ok, Err};
ghost use Rattle.compiler.specs.Verdict.{Verdict};
ghost use Rattle.calls.specs.Service.{told, Service};

use crate::call::Asked;
use crate::run::run_calls;
use atoms::Atom;
use machine::{Machine, StartFault};

// Starts a machine on an image, makes the calls of a list one after another, puts each answer beside its call, and hands
// back the machine. Whatever the calls are, nobody can tell the machine from the serial book. The limits come unchecked, as
// `compile` takes them.
pub fn serve<A: Atom + Drop>(
    atom: A,
    image: &[u8],
    d: u32,
    p: u32,
    q: u32,
    asked: &mut [Asked],
) -> Result<Machine<A>, StartFault>
    ensures verdict { Verdict A.Atom.len A.Atom.takes image.now d p q (told result) }
    ensures served { elim result [ Ok m ↦ Service A.Arith.Arithmetic.plus A.Arith.Arithmetic.minus A.Atom.ran image.now d p q asked.old asked.new m | Err f ↦ asked.new ≡ asked.old ] }
{
    let mut machine = Machine::new(atom);
    machine.start(image, d, p, q)?;
    run_calls(&mut machine, asked);
    Ok(machine)
}
