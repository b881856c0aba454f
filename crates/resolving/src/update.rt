// What an atom is asked to do.
use crate::codelet::Codelet;
use crate::decided::Decided;
use lines::Source;

// An update of a codelet's word: what the word becomes, where the decided conditions hold.
#[derive(Clone, Copy)]
pub struct Update<'a> {
    pub codelet: &'a Codelet,
    pub decided: Decided,
    // the value that the write line takes, or an arm of it
    pub source: Source,
}
