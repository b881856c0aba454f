// Runs a transaction alone on packets, one after another, from zeroed words.
//
// Standard input is text: the first line is an image in hexadecimal, each further line one packet's fields in decimal.
// Each line of input is answered by one line of output. The word `clamp` as an argument chooses the clamping arithmetic.
#![tactic(auto)]

#[cfg(test)]
mod tests;

use answering::{Spaced, answer_all, answer_fault};
use image::read_image;
use meaning::run;
use std::alloc::Global;
use std::io::Write;
use std::{env, fmt, io};
use text::{InputLines, decode_hex, decode_words};
use transaction::{Refusal, Transaction};
use word::{Arithmetic, Clamp, Wrap};

// Why the first line gave no transaction.
#[derive(Clone, Copy)]
enum ImageFault {
    Refused(Refusal),
    Malformed,
}

// What a packet is answered then.
impl fmt::Display for ImageFault {
    fn fmt<W: fmt::Write>(&self, f: &mut fmt::Formatter<W>) -> fmt::Result {
        match self {
            ImageFault::Refused(refusal) => write!(f, "{refusal}"),
            ImageFault::Malformed => write!(f, "no image"),
        }
    }
}

// Answers the line of the image.
fn load<W: Write>(
    heap: Global,
    line: &[u8],
    out: &mut W,
) -> anyhow::Result<Result<Transaction, ImageFault>> {
    let mut bytes = Vec::new(heap);
    if let Err(fault) = decode_hex(line, &mut bytes) {
        answer_fault(out, fault)?;
        return Ok(Err(ImageFault::Malformed));
    }
    match read_image(&bytes) {
        Ok(t) => {
            writeln!(
                out,
                "image fields {} states {} statements {}",
                t.fields, t.states, t.count
            )?;
            Ok(Ok(t))
        }
        Err(fault) => {
            let refusal = Refusal::from(fault);
            writeln!(out, "{refusal}")?;
            Ok(Err(ImageFault::Refused(refusal)))
        }
    }
}

// What packets run on.
#[derive(Drop)]
struct Session {
    image: Result<Transaction, ImageFault>,
    // the fields of the packet that runs
    fields: Vec<u32>,
    // the kept words
    words: Vec<u32>,
}

impl Session {
    // The image is answered, and the words are zeroed.
    fn start<W: Write>(heap: Global, line: &[u8], out: &mut W) -> anyhow::Result<Session> {
        let image = load(heap, line, out)?;
        let words = match image {
            Ok(t) => vec![in heap; 0; t.states as usize]?,
            Err(_) => Vec::new(heap),
        };
        Ok(Session {
            image,
            fields: Vec::new(heap),
            words,
        })
    }

    // Answers the line of a packet.
    fn answer<M: Arithmetic, W: Write>(&mut self, line: &[u8], out: &mut W) -> anyhow::Result<()> {
        if let Err(fault) = decode_words(line, &mut self.fields) {
            return answer_fault(out, fault);
        }
        match &self.image {
            Ok(t) => serve::<M, W>(t, &mut self.fields, &mut self.words, out)?,
            Err(fault) => writeln!(out, "{fault}")?,
        }
        Ok(())
    }
}

// Runs the transaction on a packet and the kept words, and answers the packet. No method of the session, since the transaction
// is borrowed from it beside them.
fn serve<M: Arithmetic, W: Write>(
    t: &Transaction,
    fields: &mut [u32],
    words: &mut [u32],
    out: &mut W,
) -> io::Result<()> {
    match run::<M>(t, fields, words) {
        Ok(()) => {
            let fields = Spaced(fields);
            let words = Spaced(words);
            writeln!(out, "fields{fields} words{words}")
        }
        Err(fault) => writeln!(out, "{}", Refusal::from(fault)),
    }
}

// Answers the lines of the input. Where it is empty, so is the line of the image.
fn answer_input<M: Arithmetic, W: Write>(
    heap: Global,
    input: &[u8],
    out: &mut W,
) -> anyhow::Result<()> {
    let mut lines = InputLines::new(input);
    let mut session = Session::start(heap, lines.next().unwrap_or(&[]), out)?;
    for line in lines {
        session.answer::<M, W>(line, out)?;
    }
    Ok(())
}

// Answers them in the arithmetic that clamps, or else in the one that wraps.
fn answer_chosen<W: Write>(
    clamps: bool,
    heap: Global,
    input: &[u8],
    out: &mut W,
) -> anyhow::Result<()> {
    if clamps {
        answer_input::<Clamp, W>(heap, input, out)
    } else {
        answer_input::<Wrap, W>(heap, input, out)
    }
}

fn chooses_clamp(word: &str) -> bool {
    word == "clamp"
}

fn wants_clamp(rt: &HostRuntime) -> io::Result<bool> {
    Ok(
        env::args(rt)?
            .skip(1)
            .any(|word| chooses_clamp(word.as_str())),
    )
}

fn main(rt: HostRuntime) -> anyhow::Result<()> {
    let heap = rt.alloc();
    // the arguments are looked at once the input is read
    answer_all(&rt, rt.stdin(), |input, out| {
        answer_chosen(wants_clamp(&rt)?, heap, input, out)
    })
}
