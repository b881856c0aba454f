// Schedules: the nodes of each stage, one after another.
#![tactic(auto)]

mod nodes;
mod schedule;
mod stage_nodes;
mod theorem;

pub use schedule::Schedule;
pub use stage_nodes::StageNodes;
pub use theorem::seek_finds_the_least;
