// The lines of a transaction, as far as they are made.
ghost use Rattle.std.specs.Prelude.{◌≡◌, ℕ, ◌≤◌, length, slice_index_or};
ghost use Rattle.lines.specs.declared.line.Line.TheVariants.{Read};

use crate::line::{Line, Source};
use transaction::Nest;

// The first `count` lines of a table, the latest value of each field and of each state, and the open ifs, each with its condition as it was at the if.
// The tables have a fixed length: no library uses the heap.
#[derive(Drop)]
pub struct Builder {
    pub lines: [Line; 208],
    pub count: usize,
    pub fields: [Source; 16],
    pub states: [Source; 8],
    pub nest: Nest<Source>,
    ghost room: { count ≤ 208 },
    ghost lines_long: { length lines ≡ 208 },
    ghost fields_long: { length fields ≡ 16 },
    ghost states_long: { length states ≡ 8 },
    // past the count the table holds read lines of state 0, which mean nothing
    ghost blank: { (n : ℕ) → count ≤ n → slice_index_or lines n (Read 0) ≡ Read 0 },
}
