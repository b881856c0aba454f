// The nodes of a plan.
//
// A plan's work stands in tables by line number. A line makes one value of the transaction; some lines belong to a state,
// and the state's atom does their work.

// A node: a piece of work that stands in one stage.
#[derive(Clone, Copy, PartialEq, Eq, Debug)]
pub enum Node {
    // The line of this number, which belongs to no state.
    Line,
    // An echo: it makes the value of this line, which belongs to a state, once more for others to read.
    Echo,
    // An atom: it keeps a state's word, and changes it as one step. It stands at the line that reads the old word,
    // so that atoms in the order of the table are in the order of their states.
    Atom,
}

// The node at each line number, and the row of each node: a row is a set of nodes that read only what lower rows make,
// and rows are numbered from 1. Where there is no node, the row has no meaning. The two tables stand apart, as each table of
// a plan does: by line number, whether or not a node stands there.
#[derive(Clone, Copy)]
pub struct Nodes {
    pub sorts: [Option<Node>; 208],
    pub rows: [usize; 208],
}

// The stage of each node, from 1, and how many stages there are. Where there is no node it is 0, and no Option: the rule of
// stages gives every number of the table a stage.
#[derive(Clone, Copy)]
pub struct Stages {
    pub stage_of: [usize; 208],
    pub count: usize,
}

// What a node takes up in a stage. Lines and echoes keep nothing and share the stateless slots; atoms keep a word and take
// the stateful ones.
#[derive(Clone, Copy, PartialEq, Eq, Debug)]
pub enum Slot {
    Stateless,
    Stateful,
}
