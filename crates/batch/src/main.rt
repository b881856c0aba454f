// Compiles one image and writes what comes of it.
//
// Standard input is the image as it stands, and no more than its first 1,024 bytes are read. It is compiled over two
// choices on an atom that adds and subtracts, with sums that wrap, for at most 30 stages with room for 10 lines and echoes
// and for 8 atoms each. The answer is one line: `accepted` and the number of stages, or `refused`, the number of the
// refusal and its place.
#![tactic(auto)]

use answering::{Out, answer_all};
use batch_compiler::compile_batch;
use std::io::{Read, Write};
use transaction::Refusal;

// `plan` and `verdicts` begin their answers in these words, each behind a call of its own, and go on otherwise.
fn answer(image: &[u8], out: &mut Out) -> anyhow::Result<()> {
    match compile_batch(image) {
        Ok(plan) => writeln!(out, "accepted {}", plan.placement.stages.count)?,
        Err(fault) => writeln!(out, "{}", Refusal::from(fault))?,
    }
    Ok(())
}

fn main(rt: HostRuntime) -> anyhow::Result<()> {
    answer_all(&rt, rt.stdin().take(1024), answer)
}
