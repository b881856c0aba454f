// Graphs made from a graph.
ghost use Rattle.std.specs.Prelude.{false, ◌&&◌, slice_index_or};

use crate::{Graph, Marks};

// The same graph with its edges turned.
#[derive(Drop)]
pub struct Turned<'a, G>(pub &'a G);

impl<'a, G: Graph> Graph for Turned<'a, G> {
    ghost nodes = { λ s. G.Graph.nodes s.0.now };

    ghost joins = { λ s a b. G.Graph.joins s.0.now b a };

    fn size(&self) -> usize {
        self.0.size()
    }

    fn edge(&self, a: usize, b: usize) -> bool {
        self.0.edge(b, a)
    }
}

// A part of a graph: the edges between marked nodes alone.
#[derive(Drop)]
pub struct Within<'a, G> {
    pub graph: &'a G,
    pub inside: &'a Marks,
}

impl<'a, G: Graph> Graph for Within<'a, G> {
    ghost nodes = { λ s. G.Graph.nodes s.graph.now };

    ghost joins = { λ s a b. slice_index_or s.inside.now.on a false && (slice_index_or s.inside.now.on b false && G.Graph.joins s.graph.now a b) };

    fn size(&self) -> usize {
        self.graph.size()
    }

    fn edge(&self, a: usize, b: usize) -> bool {
        self.inside.has(a) && self.inside.has(b) && self.graph.edge(a, b)
    }
}
