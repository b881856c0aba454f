// The layer that chooses between two settings of the atom below.
#![tactic(auto)]

mod choosing;

pub use choosing::Choice;
