// The lines of a transaction.
ghost use Rattle.std.specs.Prelude.{◌≡◌, ◌+◌, ◌-◌, ◌≤◌, length, take, drop, slice_index_or};
ghost use Rattle.lines.specs.Named.{amount};
ghost use Rattle.lines.specs.Build.{read_lines, write_lines, numbered};
ghost use Rattle.lines.specs.declared.line.Line.TheVariants.{Read};
ghost use Rattle.lines.specs.Layout.{Ordered, ReadsBelow, Below, Plain};

use crate::line::{Line, Source};
use word::at;

// The first `count` lines of a table: read lines of the named states, ascending, then the lines of the statements, then write lines of the named states, ascending.
// All tables have a fixed length, those by state one entry for each, and a value is copied: no library uses the heap.
#[derive(Clone, Copy)]
pub struct Lines {
    pub lines: [Line; 208],
    pub count: usize,
    // which states a statement names
    pub named: [bool; 8],
    // each field's final value; those past the transaction's fields have no meaning
    pub finals: [Source; 16],
    // what each named state's write line takes
    pub updates: [Source; 8],
    // the number of each named state's read line, and of its write line
    pub reads: [usize; 8],
    pub writes: [usize; 8],
    ghost few: { count ≤ 208 },
    ghost lines_long: { length lines ≡ 208 },
    ghost named_long: { length named ≡ 8 },
    ghost finals_long: { length finals ≡ 16 },
    ghost updates_long: { length updates ≡ 8 },
    ghost reads_at: { reads ≡ numbered 0 named },
    ghost writes_at: { writes ≡ numbered (count - amount named) named },
    // read lines come first, write lines last, and all others between them
    ghost room: { amount named + amount named ≤ count },
    ghost reads_first: { take (amount named) lines ≡ read_lines named },
    ghost writes_last: { drop (count - amount named) (take count lines) ≡ write_lines named updates },
    ghost plain: { Plain (amount named) (count - amount named) lines },
    // every line reads only lower lines, and nothing reads a write line
    ghost ordered: { Ordered (take count lines) },
    ghost lines_below: { ReadsBelow (count - amount named) (take count lines) },
    ghost finals_below: { Below (count - amount named) finals },
    ghost updates_below: { Below (count - amount named) updates },
}

impl Lines {
    // The lines, in order.
    pub fn body(&self) -> &[Line]
        ensures { result.now ≡ take self.now.count self.now.lines }
    {
        &self.lines[..self.count]
    }

    // Line n; past the table the read line of state 0, which means nothing.
    pub fn line(&self, n: usize) -> Line
        ensures { result ≡ slice_index_or self.now.lines n (Read 0) }
    {
        at(&self.lines, n, Line::Read(0))
    }
}
