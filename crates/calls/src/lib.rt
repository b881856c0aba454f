// Lists of calls on a machine.
#![tactic(auto)]

mod call;
mod run;
mod service;

pub use call::{Asked, Call, Reply};
pub use run::run_calls;
pub use service::serve;
