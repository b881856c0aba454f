// The serial meaning of a transaction, and running one alone.
#![tactic(auto)]

mod fault;
mod packet;
mod serial;
mod theorem;

pub use fault::{AloneFault, LengthFault};
pub use packet::{alone, run};
pub use theorem::branches_run_as_written;
