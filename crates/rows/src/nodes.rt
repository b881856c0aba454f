// Nodes and their rows.
ghost use Rattle.std.specs.Prelude.{◌≡◌, ℕ, ◌<◌, false, None, slice_index, slice_index_or};
ghost use Rattle.echoes.specs.Echoes.{echo};
ghost use Rattle.rows.specs.Sorts.{is_read, sort_of};
ghost use Rattle.rows.specs.Rows.{row_of};
ghost use Rattle.rows.specs.Placed.{Placed};

use crate::ranking::rows_of;
use codelets::Codelets;
use echoes::echoes_of;
use graph::Marks;
use lines::Line;
use stages::Node;

// The nodes of lines that are sorted into codelets, each with its row.
#[derive(Clone, Copy)]
pub struct Nodes {
    pub codelets: Codelets,
    pub table: stages::Nodes,
    ghost sorted: { (n : ℕ) → slice_index_or table.sorts n None ≡ sort_of codelets.lines n },
    // a row says something of nodes only
    ghost ranked: { (n : ℕ) → n < codelets.lines.count → slice_index table.rows n ≡ row_of codelets.lines n },
}

// Whether a line is a read line.
fn is_read(line: Line) -> bool
    ensures { result ≡ is_read line }
{
    matches!(line, Line::Read(_))
}

// What stands at n, where the echoes are marked.
fn sort_of(c: &Codelets, echoes: &Marks, n: usize) -> Option<Node>
    ensures { slice_index_or echoes.now.on n false ≡ echo c.now.lines n → result ≡ sort_of c.now.lines n }
{
    if n >= c.lines.count {
        None
    } else if !c.is_owned(n) {
        Some(Node::Line)
    } else if is_read(c.lines.line(n)) {
        Some(Node::Atom)
    } else if echoes.has(n) {
        Some(Node::Echo)
    } else {
        None
    }
}

// What stands at each number.
fn sorts_of(c: &Codelets) -> [Option<Node>; 208]
    ensures { (n : ℕ) → slice_index_or result n None ≡ sort_of c.now.lines n }
{
    let echoes = echoes_of(c);
    // by a loop: the proof over `array::from_fn` did not close
    let mut sorts = [None; 208];
    for (n, sort) in sorts.iter_mut().enumerate() {
        *sort = sort_of(c, &echoes, n);
    }
    sorts
}

// The nodes, each with its row.
pub fn nodes_of(c: &Codelets) -> Nodes
    ensures same { result.codelets ≡ c.now }
    ensures placed { Placed c.now.lines result.table.sorts result.table.rows }
{
    let sorts = sorts_of(c);
    let rows = rows_of(c);
    Nodes {
        codelets: *c,
        table: stages::Nodes { sorts, rows },
    }
}
