// What a placement holds.
use codelets::Codelets;
use stages::{Nodes, Stages};

// The codelets of lines, the nodes with their rows, and the stage of each node.
#[derive(Clone, Copy)]
pub struct Placement {
    pub codelets: Codelets,
    pub nodes: Nodes,
    pub stages: Stages,
}
