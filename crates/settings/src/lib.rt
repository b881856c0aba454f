// The settings of atoms: lists of numbers that say what an atom does.
#![tactic(auto)]

mod setting;

pub use setting::{
    has_room, part, read_operation, read_predicate, write_operation, write_predicate,
};
