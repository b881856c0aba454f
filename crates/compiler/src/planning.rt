// From an image to a plan.
ghost use Rattle.compiler.specs.Verdict.{outcome, TransactionJudged, Verdict};
ghost use Rattle.compiler.specs.Planned.{TransactionPlanned, Planned};

use crate::atom_settings::Fitter;
use crate::fault::CompileFault;
use atoms::Atom;
use codelets::codelets_of;
use image::read_image;
use lines::lines_of;
use placement::place_codelets;
use plans::Plan;
use stages::Limits;
use transaction::Transaction;

// The plan of a transaction within limits.
fn plan_of<A: Atom>(
    fitter: &Fitter<A>,
    transaction: &Transaction,
    limits: &Limits,
) -> Result<Plan, CompileFault>
    ensures verdict { TransactionJudged A.Atom.takes transaction.now limits.now (outcome result) }
    ensures plan { TransactionPlanned A.Arith.Arithmetic.plus A.Arith.Arithmetic.minus A.Atom.ran transaction.now limits.now result }
{
    let lines = lines_of(transaction);
    let codelets = codelets_of(&lines)?;
    let settings = fitter.settings_of(&codelets)?;
    let placement = place_codelets(&codelets, limits)?;
    Ok(Plan {
        transaction: *transaction,
        placement,
        settings,
    })
}

// The plan of an image over an atom, for at most d stages with room for p lines and echoes and for q atoms each.
// The limits stay three numbers: one out of its range is refused here, with its number and place.
pub fn compile<A: Atom>(
    atom: &A,
    image: &[u8],
    d: u32,
    p: u32,
    q: u32,
) -> Result<Plan, CompileFault>
    ensures verdict { Verdict A.Atom.len A.Atom.takes image.now d p q (outcome result) }
    ensures plan { Planned A.Arith.Arithmetic.plus A.Arith.Arithmetic.minus A.Atom.ran image.now d p q result }
{
    let limits = Limits::new(d, p, q)?;
    let fitter = Fitter::of(atom)?;
    let transaction = read_image(image)?;
    plan_of(&fitter, &transaction, &limits)
}
