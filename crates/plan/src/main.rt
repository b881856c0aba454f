// Compiles one image and lists its plan.
//
// Standard input, the atoms and the limits are those of the program `batch`, and so is the first line of the answer. Where
// the image is accepted, a line follows for each stage, with its lines and echoes by number and then its atoms by state,
// and a line for each named state, with the numbers of its setting.
#![tactic(auto)]

#[cfg(test)]
mod tests;

use answering::{Spaced, answer_all};
use batch_compiler::{compile_batch, setting_length};
use placement::Placement;
use plans::Plan;
use std::io;
use std::io::{Read, Write};
use transaction::Refusal;
use word::at;

fn write_stage<W: Write>(out: &mut W, p: &Placement, stage: usize) -> io::Result<()> {
    write!(out, "stage {stage}:")?;
    let nodes = (0..416).filter_map(|k| p.listed_at(stage, k));
    for (i, node) in nodes.enumerate() {
        let mark = if i == 0 { "" } else { "," };
        write!(out, "{mark} {node}")?;
    }
    writeln!(out, "")
}

// The stages with their nodes, and the settings.
fn write_plan<W: Write>(out: &mut W, plan: &Plan) -> io::Result<()> {
    let count = plan.placement.stages.count;
    writeln!(out, "accepted {count}")?;
    for stage in 1..=count {
        write_stage(out, &plan.placement, stage)?;
    }
    for (s, setting) in plan.settings.iter().enumerate() {
        if at(&plan.placement.codelets.lines.named, s, false) {
            writeln!(out, "setting {s}:{}", Spaced(&setting[..setting_length()]))?;
        }
    }
    Ok(())
}

fn answer<W: Write>(image: &[u8], out: &mut W) -> anyhow::Result<()> {
    match compile_batch(image) {
        Ok(plan) => write_plan(out, &plan)?,
        Err(fault) => writeln!(out, "{}", Refusal::from(fault))?,
    }
    Ok(())
}

fn main(rt: HostRuntime) -> anyhow::Result<()> {
    answer_all(&rt, rt.stdin().take(1024), |image, out| {
        answer(image, out)
    })
}
