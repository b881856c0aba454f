// Lines of input, given as bytes: hexadecimal bytes and decimal words read from one, and the place where one ends.
#![tactic(auto)]

mod decimal;
mod decode;
mod fault;
mod hexadecimal;
mod input;
mod line;
mod notation;
mod request;
mod step;
#[cfg(test)]
mod tests;

pub use decimal::decode_words;
pub use fault::TextFault;
pub use hexadecimal::decode_hex;
pub use input::InputLines;
pub use line::{line_end, word_end};
pub use request::decode_request;
