// What comes of an image, without its plan.
ghost use Rattle.choice.specs.Choice.{choice_length, choice_takes};
ghost use Rattle.atoms.specs.Kinds.{subtract_takes};
ghost use Rattle.compiler.specs.Verdict.{Verdict};
ghost use Rattle.batch_compiler.specs.StageCount.{counted};

use atoms::Subtract;
use choice::Choice;
use compiler::{CompileFault, compile};
use word::Wrap;

// How many stages the plan of an image has that `compile_within` makes, or why there is none. A plan is large, so where only
// its stages are told it is not handed on.
pub fn stages_within(image: &[u8], d: u32, p: u32, q: u32) -> Result<usize, CompileFault>
    ensures { Verdict (choice_length (choice_length 3)) (choice_takes (choice_takes subtract_takes)) image.now d p q (counted result) }
{
    match compile(&Choice(Choice(Subtract(Wrap))), image, d, p, q) {
        Ok(plan) => Ok(plan.placement.stages.count),
        Err(fault) => Err(fault),
    }
}
