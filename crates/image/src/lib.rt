// The image of a transaction, read.
#![tactic(auto)]

mod counts;
mod reader;
mod theorem;

pub use counts::Counts;
pub use reader::{Reader, read_image};
pub use theorem::accepts_written;
