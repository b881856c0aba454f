// Makes calls on a machine, as text says.
//
// Each line of standard input is one call: `start HEX D P Q`, `feed W ..`, `tick`, `take` or `take N`, `peek S`. Each is
// answered by one line. The arguments choose the arithmetic and the atoms, as `clamp choice add`; the word `trace` has the
// places drawn after each tick.
#![tactic(auto)]

mod call;
mod choices;
mod playing;
mod session;
#[cfg(test)]
mod tests;

use answering::answer_all;
use choices::Choices;
use playing::Script;
use std::{env, io};

// What the arguments choose.
fn chosen(rt: &HostRuntime) -> io::Result<Choices> {
    let mut choices = Choices::unnamed();
    for word in env::args(rt)?.skip(1) {
        choices.read_word(word.as_str());
    }
    Ok(choices)
}

fn main(rt: HostRuntime) -> anyhow::Result<()> {
    let heap = rt.alloc();
    let choices = chosen(&rt)?;
    answer_all(&rt, rt.stdin(), |input, out| {
        let script = Script {
            heap,
            choices,
            input,
        };
        script.play(out)
    })
}
