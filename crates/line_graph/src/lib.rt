// The graph of a transaction's lines.
#![tactic(auto)]

mod edges;

pub use edges::{LineGraph, is_line, is_plain, reads};
