// Graphs as a question, whether an edge runs from one node to another, and the one search that serves them all.
#![tactic(auto)]

ghost use Rattle.std.specs.Prelude.{◌≡◌, ℕ, ◌≤◌, Bool};
ghost use Rattle.graph.specs.Paths.{PathsCompose, PathsTurn};
ghost use Rattle.graph.specs.Rounds.{RoundsDecidePaths, LedDecidesPaths, ClosureDecidesPaths};
ghost use Rattle.graph.specs.Samples.{SampleReached};

mod marks;
mod search;
mod views;

pub use marks::{Marks, ROOM};
pub use search::{reach, spread};
pub use views::{Turned, Within};

// A graph's nodes are the numbers below its size.
pub trait Graph {
    ghost nodes: { Self → ℕ };

    // Whether an edge runs from the first to the second. It may be asked of any two numbers;
    // a path goes over nodes alone, so what is answered of other numbers adds none.
    ghost joins: { Self → ℕ → ℕ → Bool };

    fn size(&self) -> usize
        ensures same { result ≡ nodes self.now }
        ensures room { result ≤ 208 };

    fn edge(&self, a: usize, b: usize) -> bool
        ensures { result ≡ joins self.now a b };
}

// The rounds of the definition find exactly the nodes that a path leads to; a sample computes.
pub fn rounds_decide_paths()
    ensures one { RoundsDecidePaths }
    ensures led { LedDecidesPaths }
    ensures all { ClosureDecidesPaths }
    ensures sample { SampleReached }
{}

// Paths compose, and turn with their edges.
pub fn paths_compose_and_turn()
    ensures compose { PathsCompose }
    ensures turn { PathsTurn }
{}
