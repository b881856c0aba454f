// The examples compiled: there is a verdict on each, and it is what the definitions say.
ghost use Rattle.std.specs.Prelude.{◌≡◌, Ok, Err};
ghost use Rattle.transaction.specs.Faults.{refusal};
ghost use Rattle.choice.specs.Choice.{choice_takes, choice_length};
ghost use Rattle.atoms.specs.Kinds.{read_write_takes, add_takes, subtract_takes};
ghost use Rattle.compiler.specs.Verdict.{Verdict};
ghost use Rattle.worked_examples.specs.Images.{sampling_image, crossed_image, chained_image, countdown_image, empty_image, answered};
ghost use Rattle.worked_examples.specs.Worked.{ChoicesVerdict};

use crate::images::{COUNTDOWN, EMPTY, SAMPLING};
use atoms::{Add, Atom, ReadWrite, Subtract};
use choice::Choice;
use compiler::compile;
use transaction::Refusal;
use word::Wrap;

// How many stages the plan of an image has over an atom, or why there is none.
fn stages<A: Atom>(atom: &A, image: &[u8], d: u32, p: u32, q: u32) -> Result<usize, Refusal>
    ensures { Verdict A.Atom.len A.Atom.takes image.now d p q (answered result) }
{
    match compile(atom, image, d, p, q) {
        Ok(plan) => Ok(plan.placement.stages.count),
        Err(fault) => Err(Refusal::from(fault)),
    }
}

// The same over choice over choice over subtract.
fn over_choices(image: &[u8], d: u32, p: u32, q: u32) -> Result<usize, Refusal>
    ensures { ChoicesVerdict image.now d p q result }
{
    stages(&Choice(Choice(Subtract(Wrap))), image, d, p, q)
}

// Sampling takes five stages of 10 lines.
pub fn sampling_in_wide_stages() -> Result<usize, Refusal>
    ensures verdict { ChoicesVerdict sampling_image 30 10 8 result }
    ensures told { result ≡ Ok 5 }
{
    over_choices(&SAMPLING, 30, 10, 8)
}

// Sampling takes six stages of 2 lines.
pub fn sampling_in_narrow_stages() -> Result<usize, Refusal>
    ensures verdict { ChoicesVerdict sampling_image 30 2 8 result }
    ensures told { result ≡ Ok 6 }
{
    over_choices(&SAMPLING, 30, 2, 8)
}

// Sampling needs five stages, and there are four.
pub fn sampling_in_four_stages() -> Result<usize, Refusal>
    ensures verdict { ChoicesVerdict sampling_image 4 3 8 result }
    ensures told { result ≡ Err (refusal 10 5) }
{
    over_choices(&SAMPLING, 4, 3, 8)
}

// Sampling's update is no addition.
pub fn sampling_over_add() -> Result<usize, Refusal>
    ensures verdict { Verdict 3 add_takes sampling_image 30 10 8 (answered result) }
    ensures told { result ≡ Err (refusal 9 0) }
{
    stages(&Add(Wrap), &SAMPLING, 30, 10, 8)
}

// Sampling's update chooses between 0 and an addition, not between two words that are there.
pub fn sampling_over_choice_over_read_write() -> Result<usize, Refusal>
    ensures verdict { Verdict (choice_length 3) (choice_takes read_write_takes) sampling_image 30 10 8 (answered result) }
    ensures told { result ≡ Err (refusal 9 0) }
{
    stages(&Choice(ReadWrite(Wrap)), &SAMPLING, 30, 10, 8)
}

// Two states that wait for one another have one codelet.
pub fn crossed_states() -> Result<usize, Refusal>
    ensures verdict { ChoicesVerdict crossed_image 30 10 8 result }
    ensures told { result ≡ Err (refusal 8 0) }
{
    over_choices(&[1, 1, 2, 3, 0, 0, 16, 0, 16, 17, 0, 17, 0], 30, 10, 8)
}

// A state that counts and a state that sums up its counts stand two rows apart.
pub fn chained_states() -> Result<usize, Refusal>
    ensures verdict { ChoicesVerdict chained_image 30 10 8 result }
    ensures told { result ≡ Ok 3 }
{
    over_choices(&[1, 1, 2, 2, 1, 16, 16, 24, 1, 1, 17, 17, 16], 30, 10, 8)
}

// A state that counts down takes one stage over subtract.
pub fn countdown_over_subtract() -> Result<usize, Refusal>
    ensures verdict { Verdict 3 subtract_takes countdown_image 30 10 8 (answered result) }
    ensures told { result ≡ Ok 1 }
{
    stages(&Subtract(Wrap), &COUNTDOWN, 30, 10, 8)
}

// The transaction that does nothing has one stage.
pub fn empty_transaction() -> Result<usize, Refusal>
    ensures verdict { ChoicesVerdict empty_image 30 10 8 result }
    ensures told { result ≡ Ok 1 }
{
    over_choices(&EMPTY, 30, 10, 8)
}
