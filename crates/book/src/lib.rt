// The serial book of a machine, the serial run that it stands on, and what it is for a machine to agree with the book.
#![tactic(auto)]

mod example;
mod theorem;

pub use example::two_packets_summed;
pub use theorem::{
    alone_keeps_words, each_call_agrees_with_the_book, every_run_agrees_with_the_book,
};
