// How many fields and states a transaction has.
#[derive(Clone, Copy, Debug, PartialEq, Eq)]
pub struct Counts {
    // those below this number are there
    pub fields: u8,
    pub states: u8,
}
