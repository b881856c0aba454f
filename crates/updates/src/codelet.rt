// A state's codelet, as its atom looks at it.
ghost use Rattle.std.specs.Prelude.{◌≡◌};
ghost use Rattle.codelets.specs.Codelets.{read_of};
ghost use Rattle.updates.specs.Inner.{is_inner, inner_of, update_of};

use codelets::Codelets;
use line_graph::is_plain;
use lines::Source;
use resolving::Codelet;
use std::array;
use word::at;

// Codelets and a state's number stay two arguments of these functions: a struct of the two would have to ask for both anyway.

// Whether line n is in state s's codelet, and neither its read line nor its write line.
fn is_inner(codelets: &Codelets, s: usize, n: usize) -> bool
    ensures { result ≡ is_inner codelets.now.lines s n }
{
    codelets.owns(s, n) && is_plain(codelets.lines.line(n))
}

fn inner_lines(codelets: &Codelets, s: usize) -> [bool; 208]
    ensures { result ≡ inner_of codelets.now.lines s }
{
    array::from_fn(|n| is_inner(codelets, s, n))
}

// The number of state s's read line.
fn read_line(codelets: &Codelets, s: usize) -> u8
    ensures { result ≡ read_of codelets.now.lines s }
{
    at(&codelets.lines.reads, s, 0) as u8
}

// State s's codelet, with the lines of the whole transaction.
pub fn codelet_of(codelets: &Codelets, s: usize) -> Codelet
    ensures lines { result.lines ≡ codelets.now.lines.lines }
    ensures inner { result.inner ≡ inner_of codelets.now.lines s }
    ensures read { result.read ≡ read_of codelets.now.lines s }
{
    let inner = inner_lines(codelets, s);
    let read = read_line(codelets, s);
    Codelet {
        lines: codelets.lines.lines,
        inner,
        read,
    }
}

// State s's update: the value that its write line takes.
pub fn update_of(codelets: &Codelets, s: usize) -> Source
    ensures { result ≡ update_of codelets.now.lines s }
{
    at(&codelets.lines.updates, s, Source::Constant(0))
}
