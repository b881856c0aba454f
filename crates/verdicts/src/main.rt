// Compiles many images and writes what comes of each.
//
// Each line of standard input is an image in hexadecimal, without blanks in it, `-` for one of no bytes, and the limits in
// decimal: the number of stages, of lines and echoes to a stage, and of atoms to a stage. It is compiled over the atoms of
// the program `batch` and answered by one line, as that program answers.
#![tactic(auto)]

use answering::{Out, answer_fault, answer_lines};
use batch_compiler::stages_within;
use std::io;
use std::io::Write;
use text::decode_request;
use transaction::Refusal;

fn answer_image(out: &mut Out, image: &[u8], limits: &[u32]) -> io::Result<()> {
    let [d, p, q] = limits else {
        return writeln!(out, "malformed: three limits are wanted");
    };
    match stages_within(image, *d, *p, *q) {
        Ok(count) => writeln!(out, "accepted {count}"),
        Err(fault) => writeln!(out, "{}", Refusal::from(fault)),
    }
}

// Answers one line. As in `place`, which says why it stands twice.
fn answer(
    line: &[u8],
    image: &mut Vec<u8>,
    limits: &mut Vec<u32>,
    out: &mut Out,
) -> anyhow::Result<()> {
    match decode_request(line, image, limits) {
        Ok(()) => Ok(answer_image(out, image, limits)?),
        Err(fault) => answer_fault(out, fault),
    }
}

fn main(rt: HostRuntime) -> anyhow::Result<()> {
    let mut image = Vec::new(rt.alloc());
    let mut limits = Vec::new(rt.alloc());
    answer_lines(&rt, |line, out| {
        answer(line, &mut image, &mut limits, out)
    })
}
