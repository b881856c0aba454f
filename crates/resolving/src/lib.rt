// What an atom is asked to do: a codelet's update, resolved under decided conditions.
#![tactic(auto)]

mod codelet;
mod decided;
mod deciding;
mod fork;
mod leaf;
mod matching;
mod packet;
mod resolved;
mod source;
mod update;

pub use codelet::Codelet;
pub use decided::Decided;
pub use fork::Fork;
pub use leaf::{Leaf, Operation, Predicate};
pub use packet::Packet;
pub use resolved::Resolved;
pub use source::are_same;
pub use update::Update;
