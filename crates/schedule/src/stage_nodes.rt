// One stage's nodes.
ghost use Rattle.std.specs.Prelude.{◌<◌, get_or};
ghost use Rattle.std.specs.Option.{ForSome};

use crate::schedule::Schedule;

// The nodes of a stage that are still to come, the lowest first.
#[derive(Clone, Copy)]
pub struct StageNodes<'a> {
    pub(crate) schedule: &'a Schedule,
    pub(crate) next: Option<usize>,
    ghost in_a_stage: { ForSome next (λ n. (n < 208) × (get_or schedule.now.stage_of n 0 < 33)) },
}
