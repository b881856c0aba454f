// The nodes of one row.
ghost use Rattle.std.specs.Prelude.{◌≡◌, ◌≤◌};
ghost use Rattle.stages.specs.Filling.{slot_of, takes, row_of, in_row, precedes, tally, room, width};
ghost use Rattle.stages.specs.Rows.{comes_after, next_row};

use crate::limits::Limits;
use crate::node::{Node, Nodes, Slot};
use word::at;

impl Node {
    pub(crate) fn slot(self) -> Slot
        ensures { result ≡ slot_of self }
    {
        match self {
            Node::Line | Node::Echo => Slot::Stateless,
            Node::Atom => Slot::Stateful,
        }
    }
}

impl Slot {
    // Whether there is a node and it takes such a slot.
    fn takes(self, node: Option<Node>) -> bool
        ensures { result ≡ takes self node }
    {
        node.is_some_and(|node| node.slot() == self)
    }
}

impl Limits {
    // How many such slots a stage has.
    pub(crate) fn room(&self, slot: Slot) -> usize
        ensures exact { result ≡ room self.now.lines self.now.atoms slot }
        ensures some { 1 ≤ result }
    {
        match slot {
            Slot::Stateless => self.lines,
            Slot::Stateful => self.atoms,
        }
    }
}

impl Nodes {
    // The row of the node at n.
    pub(crate) fn row(&self, n: usize) -> usize
        ensures { result ≡ row_of self.now n }
    {
        at(&self.rows, n, 0)
    }

    // Whether a node at n takes such a slot in the row.
    fn in_row(&self, slot: Slot, row: usize, n: usize) -> bool
        ensures { result ≡ in_row self.now slot row n }
    {
        // the row first: most nodes stand in another
        self.row(n) == row && slot.takes(at(&self.sorts, n, None))
    }

    // Whether the node at m takes such a slot in the row, and stands before n.
    fn precedes(&self, slot: Slot, row: usize, n: usize, m: usize) -> bool
        ensures { result ≡ precedes self.now slot row n m }
    {
        m < n && self.in_row(slot, row, m)
    }

    // How many nodes before n take such a slot in the row.
    pub(crate) fn count(&self, slot: Slot, row: usize, n: usize) -> usize
        ensures exact { result ≡ tally 208 (precedes self.now slot row n) }
        ensures few { result ≤ 208 }
    {
        (0..208).filter(|m| self.precedes(slot, row, n, *m)).count()
    }

    // How many stages the row takes.
    pub(crate) fn width(&self, limits: &Limits, row: usize) -> usize
        ensures { result ≡ width self.now limits.now.lines limits.now.atoms row }
    {
        let for_lines = self.count(Slot::Stateless, row, 208).div_ceil(limits.lines);
        let for_atoms = self.count(Slot::Stateful, row, 208).div_ceil(limits.atoms);
        for_lines.max(for_atoms)
    }

    // Whether a node at n has a row above the given one, or any row where none is given.
    fn comes_after(&self, prior: Option<usize>, n: usize) -> bool
        ensures { result ≡ comes_after self.now prior n }
    {
        at(&self.sorts, n, None).is_some() && prior.is_none_or(|row| row < self.row(n))
    }

    // The lowest row above the given one, or of all where none is given, that has a node.
    pub(crate) fn row_after(&self, prior: Option<usize>) -> Option<usize>
        ensures { result ≡ next_row self.now prior 208 }
    {
        (0..208)
            .filter(|n| self.comes_after(prior, *n))
            .map(|n| self.row(n))
            .min()
    }
}
