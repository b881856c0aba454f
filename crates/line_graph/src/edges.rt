// The graph of a transaction's lines.
ghost use Rattle.std.specs.Prelude.{◌≡◌};
ghost use Rattle.lines.specs.Layout.{is_line, reads_line, is_plain};
ghost use Rattle.line_graph.specs.Edges.{pairs, edge};

use graph::Graph;
use lines::{Line, Lines, Source};

// Whether a source is line n.
pub fn is_line(source: Source, n: usize) -> bool
    ensures { result ≡ is_line n source }
{
    matches!(source, Source::Line(m) if usize::from(m) == n)
}

// Whether a line reads line n.
pub fn reads(line: Line, n: usize) -> bool
    ensures { result ≡ reads_line n line }
{
    match line {
        Line::Read(_) => false,
        Line::Copy(a) | Line::Write(_, a) => is_line(a, n),
        Line::Add(a, b) | Line::Sub(a, b) | Line::Less(a, b) | Line::Equal(a, b) => {
            is_line(a, n) || is_line(b, n)
        }
        Line::Choose(c, a, b) => is_line(c, n) || is_line(a, n) || is_line(b, n),
    }
}

// Whether a line is neither a read line nor a write line.
pub fn is_plain(line: Line) -> bool
    ensures { result ≡ is_plain line }
{
    !matches!(line, Line::Read(_) | Line::Write(..))
}

// Whether the first is a state's read line and the second its write line.
fn is_pair(first: Line, second: Line) -> bool
    ensures { result ≡ pairs first second }
{
    matches!((first, second), (Line::Read(s), Line::Write(t, _)) if s == t)
}

// The graph of the lines: an edge runs from a line to each line that reads it, and both ways between a state's read line and its write line.
#[derive(Drop)]
pub struct LineGraph<'a>(pub &'a Lines);

impl<'a> Graph for LineGraph<'a> {
    ghost nodes = { λ g. g.0.now.count };

    ghost joins = { λ g a b. edge g.0.now a b };

    fn size(&self) -> usize {
        self.0.count
    }

    fn edge(&self, a: usize, b: usize) -> bool {
        let from = self.0.line(a);
        let to = self.0.line(b);
        reads(to, a) || is_pair(from, to) || is_pair(to, from)
    }
}
