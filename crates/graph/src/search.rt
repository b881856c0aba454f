// The search.
ghost use Rattle.std.specs.Prelude.{◌≡◌, ℕ, ◌<◌, ◌≤◌, true, false, not, ◌&&◌, replicate, if◌then◌else◌, Decides, nat_lt, slice_index_or, slice_set};
ghost use Rattle.graph.specs.Paths.{Path, On, Led};
ghost use Rattle.graph.specs.Rounds.{reached};
ghost use Rattle.graph.specs.Searches.{Grown, Done, Follows, Closed};

use crate::{Graph, Marks};

// Marks the start alone, or nothing where it is no node.
fn start(size: usize, from: usize, marks: &mut Marks)
    ensures { marks.new.on ≡ (if nat_lt from size then slice_set (replicate 208 false) from true else replicate 208 false) }
{
    *marks = Marks::new();
    if from < size {
        marks.add(from);
    }
}

// Marks b where an edge runs to it from a, and tells whether that is a new mark; it asks only of an unmarked one.
fn visit<G: Graph>(g: &G, a: usize, b: usize, marks: &mut Marks) -> bool
    ensures told { result ≡ (not (slice_index_or marks.old.on b false) && G.joins g.now a b) }
    ensures marks { marks.new.on ≡ (if result then slice_set marks.old.on b true else marks.old.on) }
{
    let new = !marks.has(b) && g.edge(a, b);
    if new {
        marks.add(b);
    }
    new
}

// Marks each node that an edge runs to from a, which is marked; true where that added a mark.
fn follow<G: Graph>(g: &G, a: usize, marks: &mut Marks) -> bool
    requires node { a < G.nodes g.now }
    requires on { On marks.old.on a }
    ensures grown { Grown (G.nodes g.now) (G.joins g.now) marks.old.on marks.new.on result }
    ensures follows { Follows (G.nodes g.now) (G.joins g.now) marks.new.on a }
{
    let mut added = false;
    for b in 0..g.size() {
        added |= visit(g, a, b, marks);
    }
    added
}

// A search on its way: its marks, and the nodes that are done, whose edges all end at marks.
#[derive(Drop)]
struct Search<'a, G: Graph> {
    graph: &'a G,
    marks: Marks,
    done: Marks,
    ghost followed: { Done (G.nodes graph.now) (G.joins graph.now) marks.on done.on },
}

impl<'a, G: Graph> Search<'a, G> {
    // Follows the edges of a, if it is marked and not done, and then has it done; true where that added a mark.
    fn expand(&mut self, a: usize) -> bool
        requires node { a < G.nodes self.old.graph.now }
        requires room { a < 208 }
        ensures graph { self.new.graph.now ≡ self.old.graph.now }
        ensures grown { Grown (G.nodes self.old.graph.now) (G.joins self.old.graph.now) self.old.marks.on self.new.marks.on result }
        ensures keeps { (k : ℕ) → On self.old.done.on k → On self.new.done.on k }
        ensures here { On self.new.marks.on a → On self.new.done.on a }
    {
        if !self.marks.has(a) || self.done.has(a) {
            return false;
        }
        let added = follow(self.graph, a, &mut self.marks);
        self.done.add(a);
        added
    }

    // One round over all nodes, up and then down, since a graph may have its edges run either way; true exactly where it
    // added a mark. It adds only what a path leads to from the marks, and where it adds none, no edge leaves them.
    fn round(&mut self) -> bool
        ensures graph { self.new.graph.now ≡ self.old.graph.now }
        ensures grown { Grown (G.nodes self.old.graph.now) (G.joins self.old.graph.now) self.old.marks.on self.new.marks.on result }
        ensures closed { result ≡ false → Closed (G.nodes self.old.graph.now) (G.joins self.old.graph.now) self.new.marks.on }
    {
        let size = self.graph.size();
        let mut up = false;
        for a in 0..size {
            up |= self.expand(a);
        }
        let mut down = false;
        for a in (0..size).rev() {
            down |= self.expand(a);
        }
        up || down
    }
}

// Marks beside the marked nodes exactly those that a path leads to from one of them.
// Rounds go on until one adds no mark. Each node's edges are followed once, so a search asks at most size * size edge questions.
pub fn spread<G: Graph>(g: &G, marks: &mut Marks)
    ensures paths { (n : ℕ) → n < G.nodes g.now → Decides (slice_index_or marks.new.on n false) (Led (G.nodes g.now) (G.joins g.now) marks.old.on n) }
    ensures others { (n : ℕ) → G.nodes g.now ≤ n → slice_index_or marks.new.on n false ≡ slice_index_or marks.old.on n false }
{
    let mut search = Search {
        graph: g,
        marks: *marks,
        done: Marks::new(),
    };
    while search.round() {}
    *marks = search.marks;
}

// Marks exactly the nodes that a path leads to from `from`, whatever the marks were before; none where `from` is no node.
pub fn reach<G: Graph>(g: &G, from: usize, marks: &mut Marks)
    ensures paths { (n : ℕ) → Decides (slice_index_or marks.new.on n false) (Path (G.nodes g.now) (G.joins g.now) from n) }
    ensures computed { (n : ℕ) → slice_index_or marks.new.on n false ≡ slice_index_or (reached (G.nodes g.now) (G.joins g.now) from) n false }
{
    start(g.size(), from, marks);
    spread(g, marks);
}
