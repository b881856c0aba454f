// What each state's atom is asked to do: the state's codelet and its update.
#![tactic(auto)]

mod codelet;

pub use codelet::{codelet_of, update_of};
