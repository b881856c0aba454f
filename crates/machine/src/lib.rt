// Machines: pipelines of packets that carry plans out.
#![tactic(auto)]

mod fault;
mod feed;
mod held;
mod machine;
mod peek;
mod sight;
mod start;
mod take;
mod tick;

pub use fault::{MachineFault, StartFault};
pub use machine::Machine;
