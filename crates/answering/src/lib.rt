// What the programs share that answer each line of their input.
#![tactic(auto)]

ghost use Rattle.std.specs.Prelude.{IsErr, OnOk, codes, ◌≡◌, ◌++◌};
ghost use Rattle.std.specs.Io.KnownBytes.{Appends};
ghost use Rattle.text.specs.Told.{fault_text};
ghost use Rattle.text.specs.declared.fault.TextFault.TheVariants.{Memory};

mod spaced;
#[cfg(test)]
mod tests;

pub use spaced::Spaced;
use std::alloc::AllocError;
use std::io::{BufWriter, Read, Stdout, Write};
use text::{InputLines, TextFault};

// Where answers are written.
pub type Out = BufWriter<Stdout>;

// Reads to the end, and answers what was read on standard output. No contract says what is read and written.
pub fn answer_all<R: Read + Drop, F: FnOnce(&[u8], &mut Out) -> anyhow::Result<()>>(
    rt: &HostRuntime,
    mut from: R,
    answer: F,
) -> anyhow::Result<()>
    requires { F.IsAlwaysCallable answer }
{
    let mut input = Vec::new(rt.alloc());
    from.read_to_end(&mut input)?;
    let mut out = BufWriter::new(rt.alloc(), rt.stdout())?;
    answer(&input, &mut out)?;
    out.flush()?;
    Ok(())
}

// Answers each line of standard input, in order.
pub fn answer_lines<F: FnMut(&[u8], &mut Out) -> anyhow::Result<()>>(
    rt: &HostRuntime,
    answer: F,
) -> anyhow::Result<()>
    requires { F.IsAlwaysCallable answer }
{
    answer_all(rt, rt.stdin(), |input, out| answer_each(input, out, answer))
}

fn answer_each<F: FnMut(&[u8], &mut Out) -> anyhow::Result<()>>(
    input: &[u8],
    out: &mut Out,
    mut answer: F,
) -> anyhow::Result<()>
    requires { F.IsAlwaysCallable answer }
{
    for line in InputLines::new(input) {
        answer(line, out)?;
    }
    Ok(())
}

// Answers a line that could not be decoded by where it is malformed. Where memory is wanting there is no answer.
pub fn answer_fault<W: Write>(out: &mut W, fault: TextFault) -> anyhow::Result<()>
    ensures memory { fault ≡ Memory → IsErr result }
    ensures answered { OnOk result (Appends (W.contents out.old) (W.contents out.new) (fault_text fault ++ codes "\n")) }
{
    match fault {
        TextFault::Memory => Err(AllocError.into()),
        malformed => Ok(writeln!(out, "{malformed}")?),
    }
}
