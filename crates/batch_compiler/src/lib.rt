// What the programs compile over that say no atoms: two choices on an atom that adds and subtracts, with sums that wrap.
#![tactic(auto)]

mod stage_count;

ghost use Rattle.std.specs.Prelude.{◌≡◌};
ghost use Rattle.choice.specs.Choice.{choice_length, choice_takes, choice_ran};
ghost use Rattle.atoms.specs.Kinds.{subtract_takes, subtract_ran};
ghost use Rattle.word.specs.contracts.arithmetic.WrapArithmetic.TheImpl.{ghosts as wrap};
ghost use Rattle.compiler.specs.Verdict.{outcome, Verdict};
ghost use Rattle.compiler.specs.Planned.{Planned};

use atoms::{Atom, Subtract};
use choice::Choice;
use compiler::{CompileFault, compile};
use plans::Plan;
pub use stage_count::stages_within;
use word::Wrap;

// How many numbers the setting of an atom has.
pub fn setting_length() -> usize
    ensures { result ≡ choice_length (choice_length 3) }
{
    Choice(Choice(Subtract(Wrap))).length() as usize
}

// The plan of an image for at most d stages with room for p lines and echoes and for q atoms each.
pub fn compile_within(image: &[u8], d: u32, p: u32, q: u32) -> Result<Plan, CompileFault>
    ensures verdict { Verdict (choice_length (choice_length 3)) (choice_takes (choice_takes subtract_takes)) image.now d p q (outcome result) }
    ensures plan { Planned wrap.plus wrap.minus (choice_ran (choice_length 3) (choice_ran 3 (subtract_ran wrap.plus wrap.minus))) image.now d p q result }
{
    compile(&Choice(Choice(Subtract(Wrap))), image, d, p, q)
}

// The plan of an image within the limits of `batch` and `plan`.
pub fn compile_batch(image: &[u8]) -> Result<Plan, CompileFault>
    ensures verdict { Verdict (choice_length (choice_length 3)) (choice_takes (choice_takes subtract_takes)) image.now 30 10 8 (outcome result) }
    ensures plan { Planned wrap.plus wrap.minus (choice_ran (choice_length 3) (choice_ran 3 (subtract_ran wrap.plus wrap.minus))) image.now 30 10 8 result }
{
    compile_within(image, 30, 10, 8)
}
