// Places every node of a transaction.
ghost use Rattle.placement.specs.Placement.{Staged, Answers};

use crate::fault::PlaceFault;
use crate::placed::Placement;
use codelets::{Codelets, codelets_of};
use lines::Lines;
use rows::nodes_of;
use stages::{Limits, StageFault, fill};

// The placement of lines that are sorted into codelets already; refused where the stages do not suffice.
pub fn place_codelets(codelets: &Codelets, limits: &Limits) -> Result<Placement, StageFault>
    ensures { Staged codelets.now limits.now result }
{
    let nodes = nodes_of(codelets).table;
    let stages = fill(&nodes, limits)?;
    Ok(Placement {
        codelets: *codelets,
        nodes,
        stages,
    })
}

// The placement of lines within limits; refused where two states are in one codelet, or else where the stages do not suffice.
pub fn place_lines(lines: &Lines, limits: &Limits) -> Result<Placement, PlaceFault>
    ensures { Answers lines.now limits.now result }
{
    let codelets = codelets_of(lines)?;
    Ok(place_codelets(&codelets, limits)?)
}
