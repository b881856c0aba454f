// The nodes of a stage, as they are listed.
ghost use Rattle.std.specs.Prelude.{◌≡◌, ℕ, ◌<◌, Some, slice_index_or, None};
ghost use Rattle.placement.specs.Listing.{atom_in, atom_state, listed_at, listed_text, node_in, stateless_in};

use crate::placed::Placement;
use lines::Line;
use stages::Node;
use std::{array, fmt};
use word::at;

// A node by its name: a line or an echo by its number, an atom by its state.
#[derive(Clone, Copy, Debug, PartialEq, Eq)]
pub enum Listed {
    Line(usize),
    Echo(usize),
    Atom(u8),
}

impl fmt::Display for Listed {
    ghost output = { λ node. Some (listed_text node) };

    fn fmt<W: fmt::Write>(&self, f: &mut fmt::Formatter<W>) -> fmt::Result {
        match self {
            Listed::Line(n) => write!(f, "line {n}"),
            Listed::Echo(n) => write!(f, "echo {n}"),
            Listed::Atom(s) => write!(f, "atom {s}"),
        }
    }
}

impl Placement {
    // What stands in a stage: in the first 208 places its lines and echoes by number, in the others its atoms by state.
    pub fn listed(&self, stage: usize) -> [Option<Listed>; 416]
        ensures { (k : ℕ) → k < 416 → slice_index_or result k None ≡ listed_at self.now stage k }
    {
        array::from_fn(|k| self.listed_at(stage, k))
    }

    // What stands at one place of that list. Programs go over the places one by one: a whole list for each stage made `place`
    // take up to twice as long, and more where there are many stages.
    pub fn listed_at(&self, stage: usize, k: usize) -> Option<Listed>
        ensures { result ≡ listed_at self.now stage k }
    {
        if k < 208 {
            self.stateless_in(stage, k)
        } else {
            self.atom_in(stage, k - 208)
        }
    }

    // The line or echo at line n, where it stands in the stage.
    fn stateless_in(&self, stage: usize, n: usize) -> Option<Listed>
        ensures { result ≡ stateless_in self.now stage n }
    {
        match self.node_in(stage, n)? {
            Node::Line => Some(Listed::Line(n)),
            Node::Echo => Some(Listed::Echo(n)),
            Node::Atom => None,
        }
    }

    // The atom at line n, where it stands in the stage.
    fn atom_in(&self, stage: usize, n: usize) -> Option<Listed>
        ensures { result ≡ atom_in self.now stage n }
    {
        match self.node_in(stage, n)? {
            Node::Atom => Some(Listed::Atom(self.atom_state(n))),
            Node::Line | Node::Echo => None,
        }
    }

    fn node_in(&self, stage: usize, n: usize) -> Option<Node>
        ensures { result ≡ node_in self.now stage n }
    {
        if at(&self.stages.stage_of, n, 0) == stage {
            at(&self.nodes.sorts, n, None)
        } else {
            None
        }
    }

    // The state whose atom stands at line n.
    fn atom_state(&self, n: usize) -> u8
        ensures { result ≡ atom_state self.now n }
    {
        match self.codelets.lines.line(n) {
            Line::Read(s) => s,
            _ => 0,
        }
    }
}
