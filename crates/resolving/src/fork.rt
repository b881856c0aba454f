// An update that chooses.
use crate::leaf::Predicate;
use lines::Source;

// An update that is an inner choose on a predicate.
#[derive(Clone, Copy, Debug, PartialEq, Eq)]
pub struct Fork {
    // the condition, resolved
    pub condition: Source,
    pub predicate: Predicate,
    // what is chosen where the predicate is true, and where it is false
    pub first: Source,
    pub second: Source,
}
