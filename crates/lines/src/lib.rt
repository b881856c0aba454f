// Lines: a transaction without branches, with the same meaning.
#![tactic(auto)]

mod build;
mod builder;
mod examples;
mod line;
mod lines;
mod named;
mod unique;
mod work;

pub use build::lines_of;
pub use examples::sampling_lines;
pub use line::{Line, Source};
pub use lines::Lines;
pub use unique::lines_are_unique;
