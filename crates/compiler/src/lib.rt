// The compiler: from the bytes of an image to a plan, or to the refusal that it deserves.
#![tactic(auto)]

mod atom_settings;
mod fault;
mod planning;

pub use fault::{AtomFault, CompileFault};
pub use planning::compile;
