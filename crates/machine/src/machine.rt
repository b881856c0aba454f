// A machine.
ghost use Rattle.std.specs.Prelude.{◌≡◌, length};

use crate::held::Held;
use plans::Plan;
use schedule::Schedule;

// A pipeline that carries a plan out.
#[derive(Drop)]
pub struct Machine<A> {
    pub(crate) atom: A,
    pub(crate) plan: Plan,
    pub(crate) schedule: Schedule,
    pub(crate) held: Held,
    ghost scheduled: { schedule.stage_of ≡ plan.placement.stages.stage_of },
    ghost settings_long: { length plan.settings ≡ 8 },
}
