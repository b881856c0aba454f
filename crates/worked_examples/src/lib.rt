// Worked examples: what the definitions say of a few transactions.
#![tactic(auto)]

#[cfg(test)]
mod asking;
mod compiled;
mod images;
mod served;
mod theorem;

pub use compiled::{
    chained_states, countdown_over_subtract, crossed_states, empty_transaction,
    sampling_in_four_stages, sampling_in_narrow_stages, sampling_in_wide_stages, sampling_over_add,
    sampling_over_choice_over_read_write,
};
pub use served::{
    serve_countdown_clamping, serve_countdown_wrapping, serve_nothing, serve_sampling,
};
pub use theorem::worked_examples;
