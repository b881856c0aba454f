// Words: whole numbers below 2^32, their arithmetics and comparisons, and tables read and written without a bound to prove.
#![tactic(auto)]

mod arithmetic;
mod comparison;
mod table;

pub use arithmetic::{Arithmetic, Clamp, Wrap};
pub use comparison::{equal, is_true, less};
pub use table::{at, put};
