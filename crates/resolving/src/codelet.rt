// A codelet, as an atom kind looks at it.
ghost use Rattle.std.specs.Prelude.{◌≡◌, true};
ghost use Rattle.resolving.specs.Reads.{lower_from};

use lines::Line;

// The lines that keep one state's word, tied together by its read line and its write line.
// Those between the two are its inner lines; every value that is made elsewhere is outside.
// Lines and marks are two plain tables by line number, as all tables of lines are: libraries use no heap.
#[derive(Clone, Copy)]
pub struct Codelet {
    // the lines of the whole transaction
    pub lines: [Line; 208],
    // which of them are inner lines of this codelet
    pub inner: [bool; 208],
    // the number of the read line, whose value is the old word
    pub read: u8,
    // an inner line reads only lines before it
    ghost lower: { lower_from 0 lines inner ≡ true },
}
