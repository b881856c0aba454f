// Codelets: the lines that hang together with a state's update.
#![tactic(auto)]

mod codelets;
mod fault;
mod theorem;

pub use codelets::{Codelets, codelets_of};
pub use fault::CodeletFault;
pub use theorem::codelets_by_paths;
