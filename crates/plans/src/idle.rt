// The plan of a transaction that does nothing.
ghost use Rattle.std.specs.Prelude.{◌≡◌, [], ◌∷◌};
ghost use Rattle.transaction.specs.Programs.{program_of};
ghost use Rattle.image.specs.Reading.{good, image_says};
ghost use Rattle.placement.specs.Placement.{WellPlaced};
ghost use Rattle.plans.specs.Idle.{idle_program, one, Bare, AlwaysSound};

use crate::plan::Plan;
use codelets::Codelets;
use lines::{Lines, lines_of};
use placement::Placement;
use stages::{Nodes, Stages};
use transaction::{Statement, Transaction};

// One field, no state, no statement.
fn nothing() -> Transaction
    ensures { program_of result ≡ idle_program }
{
    Transaction {
        fields: 1,
        states: 0,
        count: 0,
        statements: [Statement::End; 48],
    }
}

// One empty stage for lines of which there are none.
fn one_stage(lines: &Lines) -> Placement
    requires { Bare lines.now }
    ensures lines { result.codelets.lines ≡ lines.now }
    ensures placed { WellPlaced lines.now one result }
{
    let codelets = Codelets {
        lines: *lines,
        owner: [None; 208],
    };
    let nodes = Nodes {
        sorts: [None; 208],
        rows: [0; 208],
    };
    let stages = Stages {
        stage_of: [0; 208],
        count: 1,
    };
    Placement {
        codelets,
        nodes,
        stages,
    }
}

// The plan of a machine that was never started: one empty stage, which a packet of one field passes unchanged.
pub fn idle_plan() -> Plan
    ensures program { program_of result.transaction ≡ idle_program }
    ensures image { image_says (1 ∷ 1 ∷ 0 ∷ 0 ∷ []) ≡ good (program_of result.transaction) }
    ensures sound { AlwaysSound result }
{
    let transaction = nothing();
    let lines = lines_of(&transaction);
    let placement = one_stage(&lines);
    Plan {
        transaction,
        placement,
        settings: [[0; 64]; 8],
    }
}
