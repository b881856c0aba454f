// Placement: the stage of every node of a transaction.
#![tactic(auto)]

mod fault;
mod listing;
mod place;
mod placed;

pub use fault::PlaceFault;
pub use listing::Listed;
pub use place::{place_codelets, place_lines};
pub use placed::Placement;
