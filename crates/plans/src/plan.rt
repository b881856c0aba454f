// A plan.
ghost use Rattle.std.specs.Prelude.{ℕ, ◌<◌, ◌≤◌};
ghost use Rattle.rows.specs.Makers.{Reads};
ghost use Rattle.placement.specs.Placement.{stage_at};

use placement::Placement;
use transaction::Transaction;

// What a transaction was compiled to. Every plan that exists reads in a stage only what earlier stages made.
#[derive(Clone, Copy)]
pub struct Plan {
    pub transaction: Transaction,
    // the stage of each node, with the lines, codelets and rows that it comes from
    pub placement: Placement,
    // for each named state its setting, the numbers that tell its atom what to do; an unnamed state's have no meaning
    pub settings: [[u32; 64]; 8],
    ghost some_stage: { 1 ≤ placement.stages.count },
    ghost few_stages: { placement.stages.count ≤ 32 },
    ghost earlier: { (m n : ℕ) → Reads placement.codelets.lines m n → stage_at placement m < stage_at placement n },
}
