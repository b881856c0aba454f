// Atoms: the circuits that update one kept word in one clock.
#![tactic(auto)]

mod add;
mod atom;
mod fitting;
mod read_write;
mod subtract;

pub use add::Add;
pub use atom::Atom;
pub use read_write::ReadWrite;
pub use subtract::Subtract;
