// Reads images, one in hexadecimal to each line of standard input, and writes for each its statements or why it is refused.
#![tactic(auto)]

use answering::{Out, answer_fault, answer_lines};
use image::read_image;
use std::io;
use std::io::Write;
use text::decode_hex;
use transaction::{Refusal, Transaction};

fn write_transaction(out: &mut Out, t: &Transaction) -> io::Result<()> {
    write!(out, "fields {} states {}", t.fields, t.states)?;
    for statement in t.body() {
        write!(out, "; {statement}")?;
    }
    writeln!(out, "")
}

// Answers one line.
fn answer(line: &[u8], bytes: &mut Vec<u8>, out: &mut Out) -> anyhow::Result<()> {
    if let Err(fault) = decode_hex(line, bytes) {
        return answer_fault(out, fault);
    }
    match read_image(bytes) {
        Ok(t) => write_transaction(out, &t)?,
        Err(fault) => writeln!(out, "{}", Refusal::from(fault))?,
    }
    Ok(())
}

fn main(rt: HostRuntime) -> anyhow::Result<()> {
    let mut bytes = Vec::new(rt.alloc());
    answer_lines(&rt, |line, out| answer(line, &mut bytes, out))
}
