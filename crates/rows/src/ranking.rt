// The rows of nodes, by passes that raise numbers until none has to rise.
ghost use Rattle.std.specs.Prelude.{◌≡◌, ℕ, ◌<◌, slice_index};
ghost use Rattle.rows.specs.Makers.{makes};
ghost use Rattle.rows.specs.Rows.{highest, row_of};
ghost use Rattle.rows.specs.Passes.{row_at, source_top, line_top, outside_of, atom_top, Under, Passed};

use codelets::Codelets;
use lines::{Line, Source};
use std::array;
use word::at;

// The number at a source that is a line, or 0.
fn source_top(rows: &[usize; 208], source: Source) -> usize
    ensures { result ≡ source_top (row_at rows.now) source }
{
    match source {
        Source::Line(m) => at(rows, m as usize, 0),
        Source::Field(_) | Source::Constant(_) => 0,
    }
}

// The highest number at a line that a line reads, or 0.
fn line_top(rows: &[usize; 208], line: Line) -> usize
    ensures { result ≡ line_top (row_at rows.now) line }
{
    match line {
        Line::Read(_) => 0,
        Line::Copy(a) | Line::Write(_, a) => source_top(rows, a),
        Line::Add(a, b) | Line::Sub(a, b) | Line::Less(a, b) | Line::Equal(a, b) => {
            source_top(rows, a).max(source_top(rows, b))
        }
        Line::Choose(c, a, b) => {
            let arms = source_top(rows, a).max(source_top(rows, b));
            source_top(rows, c).max(arms)
        }
    }
}

// Codelets and a state's number stay two arguments: a struct of the two would have to ask for both anyway.

// The numbers outside state s's codelet, and 0 inside.
fn outside(c: &Codelets, s: usize, rows: &[usize; 208]) -> [usize; 208]
    ensures { (n : ℕ) → slice_index result n ≡ outside_of c.now.lines s (row_at rows.now) n }
{
    array::from_fn(|n| if c.owns(s, n) { 0 } else { at(rows, n, 0) })
}

// The highest number that a line of state s's codelet reads from outside, or 0.
fn atom_top(c: &Codelets, s: usize, rows: &[usize; 208]) -> usize
    ensures { result ≡ atom_top c.now.lines s (row_at rows.now) }
{
    let seen = outside(c, s, rows);
    (0..c.lines.count)
        .filter(|i| c.owns(s, *i))
        .map(|i| line_top(&seen, c.lines.line(i)))
        .max()
        .unwrap_or(0)
}

// The highest number among the makers of what stands at n reads, or 0.
fn above(c: &Codelets, rows: &[usize; 208], n: usize) -> usize
    requires { n < c.now.lines.count }
    ensures { result ≡ highest c.now.lines.count (λ m. makes c.now.lines m n) (row_at rows.now) }
{
    let line = c.lines.line(n);
    match line {
        Line::Read(s) => atom_top(c, s as usize, rows),
        _ => line_top(rows, line),
    }
}

// One pass over the lines; true where a number rose. Each turn reads the numbers that earlier ones raised, so it is no chain.
fn pass(c: &Codelets, rows: &mut [usize; 208]) -> bool
    requires { Under c.now.lines rows.old }
    ensures { Passed c.now.lines rows.old rows.new result }
{
    let mut changed = false;
    for n in 0..c.lines.count {
        let row = above(c, rows, n) + 1;
        if at(rows, n, 0) < row {
            rows[n] = row;
            changed = true;
        }
    }
    changed
}

// The row of each node. Only an atom reads what has a higher number, so there are few passes.
pub fn rows_of(c: &Codelets) -> [usize; 208]
    ensures { (n : ℕ) → n < c.now.lines.count → slice_index result n ≡ row_of c.now.lines n }
{
    let mut rows = [0; 208];
    // pass after pass, until one raises nothing: how many there are is not known before
    while pass(c, &mut rows) {}
    rows
}
