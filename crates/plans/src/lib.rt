// Plans: where each node of a transaction stands and what each atom does, and the pipeline that carries it out.
#![tactic(auto)]

mod idle;
mod plan;
mod theorem;

pub use idle::idle_plan;
pub use plan::Plan;
pub use theorem::sound_plans_are_right;
