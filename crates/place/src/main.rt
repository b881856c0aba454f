// Places the nodes of transactions in stages.
//
// Each line of standard input is an image in hexadecimal, without blanks in it, and the limits in decimal: the number of
// stages, of lines and echoes to a stage, and of atoms to a stage. Each is answered by one line of output.
#![tactic(auto)]

use answering::{Out, answer_fault, answer_lines};
use image::read_image;
use lines::lines_of;
use placement::{Placement, place_lines};
use stages::Limits;
use std::io;
use std::io::Write;
use text::{TextFault, decode_hex, decode_words, word_end};
use transaction::{Refusal, Transaction};

// The nodes by stage: lines and echoes by number, then atoms by state.
fn write_placement(out: &mut Out, p: &Placement) -> io::Result<()> {
    write!(out, "{} stages :", p.stages.count)?;
    for stage in 1..=p.stages.count {
        for node in (0..416).filter_map(|k| p.listed_at(stage, k)) {
            write!(out, " {node} @{stage}")?;
        }
    }
    writeln!(out, "")
}

fn answer_placed(out: &mut Out, t: &Transaction, limits: &Limits) -> io::Result<()> {
    match place_lines(&lines_of(t), limits) {
        Ok(p) => write_placement(out, &p),
        Err(fault) => writeln!(out, "{}", Refusal::from(fault)),
    }
}

fn answer_image(out: &mut Out, image: &[u8], limits: &[u32]) -> io::Result<()> {
    let [d, p, q] = limits else {
        return writeln!(out, "malformed: three limits are wanted");
    };
    match Limits::new(*d, *p, *q) {
        Ok(limits) => match read_image(image) {
            Ok(t) => answer_placed(out, &t, &limits),
            Err(fault) => writeln!(out, "{}", Refusal::from(fault)),
        },
        Err(fault) => writeln!(out, "{}", Refusal::from(fault)),
    }
}

// The image that a line's first word writes, and the limits behind it. As `text::decode_request`, but here `-` is no image.
fn decode_line(line: &[u8], image: &mut Vec<u8>, limits: &mut Vec<u32>) -> Result<(), TextFault> {
    let (word, rest) = line.split_at(word_end(line));
    decode_hex(word, image)?;
    decode_words(rest, limits).map_err(|fault| fault.behind(word.len()))
}

// Answers one line. As in `verdicts`: one function over how a line is decoded and answered was tried, and the proof that its
// closure may always be called did not close.
fn answer(
    line: &[u8],
    image: &mut Vec<u8>,
    limits: &mut Vec<u32>,
    out: &mut Out,
) -> anyhow::Result<()> {
    match decode_line(line, image, limits) {
        Ok(()) => Ok(answer_image(out, image, limits)?),
        Err(fault) => answer_fault(out, fault),
    }
}

fn main(rt: HostRuntime) -> anyhow::Result<()> {
    let mut image = Vec::new(rt.alloc());
    let mut limits = Vec::new(rt.alloc());
    answer_lines(&rt, |line, out| {
        answer(line, &mut image, &mut limits, out)
    })
}
