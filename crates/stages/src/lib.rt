// Stages: which stage of the pipeline does each piece of work of a plan.
#![tactic(auto)]

mod fault;
mod filling;
mod limits;
mod node;
mod row;
mod theorem;

pub use fault::{LimitFault, StageFault};
pub use filling::fill;
pub use limits::Limits;
pub use node::{Node, Nodes, Stages};
pub use theorem::worked_examples;
