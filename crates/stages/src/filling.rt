// Filling stages with nodes, row after row.
ghost use Rattle.std.specs.Prelude.{◌≡◌, ℕ, ◌<◌, ◌≤◌, if◌then◌else◌, IfOk, nat_eq, slice_index_or};
ghost use Rattle.stages.specs.Limits.{fault_of};
ghost use Rattle.stages.specs.WellStaged.{too_deep, WellStaged};
ghost use Rattle.stages.specs.Filling.{row_of, node_at, placed, stage_of, stage_count};

use crate::fault::StageFault;
use crate::limits::Limits;
use crate::node::{Nodes, Stages};
use word::at;

// The limits stay a parameter of these methods: a struct of nodes and limits would make each contract longer.
impl Nodes {
    // The stage of the node at n, or 0 where there is none; `start` stages hold the rows below its row.
    fn stage(&self, limits: &Limits, start: usize, n: usize) -> usize
        requires { start ≤ 208 }
        ensures { result ≡ placed self.now limits.now.lines limits.now.atoms start n (node_at self.now n) }
    {
        match at(&self.sorts, n, None) {
            None => 0,
            Some(node) => {
                let slot = node.slot();
                start + 1 + self.count(slot, self.row(n), n) / limits.room(slot)
            }
        }
    }

    // Writes the stages of a row's nodes.
    fn place_row(&self, limits: &Limits, row: usize, start: usize, stage_of: &mut [usize; 208])
        requires { start ≤ 208 }
        ensures { (n : ℕ) → n < 208 → slice_index_or stage_of.new n 0 ≡ (if nat_eq (row_of self.now n) row then placed self.now limits.now.lines limits.now.atoms start n (node_at self.now n) else slice_index_or stage_of.old n 0) }
    {
        for (n, stage) in stage_of.iter_mut().enumerate() {
            if self.row(n) == row {
                *stage = self.stage(limits, start, n);
            }
        }
    }
}

// The stages that the nodes take, however many. A plan has a stage even where no row takes one.
fn layout(nodes: &Nodes, limits: &Limits) -> Stages
    ensures each { (n : ℕ) → n < 208 → slice_index_or result.stage_of n 0 ≡ stage_of nodes.now limits.now.lines limits.now.atoms n }
    ensures count { result.count ≡ stage_count nodes.now limits.now.lines limits.now.atoms }
    ensures well { WellStaged nodes.now limits.now.lines limits.now.atoms result }
{
    let mut stage_of = [0; 208];
    let mut needed = 0;
    let mut next = nodes.row_after(None);
    // each row is found from the one before it, so there is no list of rows to go over
    while let Some(row) = next {
        nodes.place_row(limits, row, needed, &mut stage_of);
        needed += nodes.width(limits, row);
        next = nodes.row_after(Some(row));
    }
    Stages {
        stage_of,
        count: needed.max(1),
    }
}

// Whether there are as many stages as are needed.
fn check_depth(needed: usize, limits: &Limits) -> Result<(), StageFault>
    ensures answer { fault_of result ≡ too_deep limits.now.stages needed }
    ensures within { IfOk result (λ _. needed ≤ limits.now.stages) }
{
    if needed > limits.stages {
        return Err(StageFault { needed });
    }
    Ok(())
}

// The stage of each node, within the limits. A row of m lines and echoes and q atoms takes the larger of m / lines and
// q / atoms stages, each rounded up; stages are numbered from 1, row after row; in a row, lines and echoes together fill
// them in the order of the table, and so do atoms. Without nodes there is one empty stage.
pub fn fill(nodes: &Nodes, limits: &Limits) -> Result<Stages, StageFault>
    ensures refused { fault_of result ≡ too_deep limits.now.stages (stage_count nodes.now limits.now.lines limits.now.atoms) }
    ensures count { IfOk result (λ s. s.count ≡ stage_count nodes.now limits.now.lines limits.now.atoms) }
    ensures each { IfOk result (λ s. (n : ℕ) → n < 208 → slice_index_or s.stage_of n 0 ≡ stage_of nodes.now limits.now.lines limits.now.atoms n) }
    ensures within { IfOk result (λ s. s.count ≤ limits.now.stages) }
    ensures well { IfOk result (λ s. WellStaged nodes.now limits.now.lines limits.now.atoms s) }
{
    let stages = layout(nodes, limits);
    check_depth(stages.count, limits)?;
    Ok(stages)
}
