// Rows: the nodes of a transaction, and how many makers deep each one reads.
#![tactic(auto)]

mod nodes;
mod ranking;
mod theorem;

pub use nodes::{Nodes, nodes_of};
pub use ranking::rows_of;
pub use theorem::{nodes_and_makers, rows_follow_their_rule, samples_stand};
