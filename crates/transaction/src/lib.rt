// Packet transactions: what one says, when it is well formed, and how a refusal is told.
#![tactic(auto)]

mod body;
mod fault;
mod frame;
mod nest;
mod refusal;
mod shown;
mod statement;
mod transaction;

pub use fault::ReadFault;
pub use frame::{Frame, Nest};
pub use refusal::Refusal;
pub use statement::{Kind, Operand, Place, Statement, Target, UnknownKind};
pub use transaction::Transaction;
