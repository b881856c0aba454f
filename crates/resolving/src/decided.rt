// Decided conditions.

// The conditions that are known to be true or false, by the line or the incoming field whose value each one is.
#[derive(Clone, Copy)]
pub struct Decided {
    pub lines: [Option<bool>; 208],
    pub fields: [Option<bool>; 16],
}
