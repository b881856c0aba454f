// The echoes of inner lines.
#![tactic(auto)]

mod search;
mod theorem;

pub use search::echoes_of;
pub use theorem::echoes_are_least;
