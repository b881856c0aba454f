// The images of the examples that are compiled and served.

// f1 := s0 == 9; if f1; f0 := 1; s0 := 0; else; f0 := 0; s0 := s0 + 1; end
pub(crate) const SAMPLING: [u8; 30] = [
    1, 2, 1, 8, 4, 1, 16, 24, 9, 6, 1, 0, 0, 24, 1, 0, 16, 24, 0, 7, 0, 0, 24, 0, 1, 16, 16, 24, 1,
    8,
];

// s0 := s0 - 1
pub(crate) const COUNTDOWN: [u8; 9] = [1, 1, 1, 1, 2, 16, 16, 24, 1];

// nothing
pub(crate) const EMPTY: [u8; 4] = [1, 1, 0, 0];
