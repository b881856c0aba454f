// The echoes of inner lines: an echo makes its line's value again, for those outside the codelet.
ghost use Rattle.std.specs.Prelude.{◌≡◌, ℕ, ◌<◌, ◌≤◌, false, ◌&&◌, Decides, slice_index_or};
ghost use Rattle.graph.specs.Paths.{Led};
ghost use Rattle.graph.specs.Rounds.{some_below};
ghost use Rattle.echoes.specs.Echoes.{is_final, read_outside, leaves, seed, echo, Echo};

use codelets::Codelets;
use graph::{Graph, Marks, Turned, Within, spread};
use line_graph::{LineGraph, is_line, reads};
use lines::Lines;
use std::array;
use word::at;

// Whether line n is a field's final value.
fn is_final(lines: &Lines, n: usize) -> bool
    ensures { result ≡ is_final lines.now n }
{
    lines.finals.iter().any(|source| is_line(*source, n))
}

// Codelets and a state's number stay two arguments: a struct of the two would have to ask for both anyway.

// Whether line m, outside state s's codelet, reads line n.
fn reads_outside(c: &Codelets, s: usize, n: usize, m: usize) -> bool
    ensures { result ≡ read_outside c.now.lines s n m }
{
    reads(c.lines.line(m), n) && !c.owns(s, m)
}

// Whether a line outside state s's codelet reads line n.
fn is_read_outside(c: &Codelets, s: usize, n: usize) -> bool
    ensures { result ≡ some_below c.now.lines.count (read_outside c.now.lines s n) }
{
    (0..c.lines.count).any(|m| reads_outside(c, s, n, m))
}

// Whether a line outside its codelet reads line n.
fn leaves_codelet(c: &Codelets, n: usize) -> bool
    ensures { result ≡ leaves c.now.lines n }
{
    at(&c.owner, n, None).is_some_and(|s| is_read_outside(c, s, n))
}

// Whether line n has an echo by itself, and not only since an echo reads it.
fn is_seed(c: &Codelets, n: usize) -> bool
    ensures { result ≡ seed c.now.lines n }
{
    c.is_inner(n) && (is_final(&c.lines, n) || leaves_codelet(c, n))
}

// Marks beside the marked lines those inside that a path leads to from one of them, over lines inside alone and against the edges.
fn trace<G: Graph>(g: &G, inside: &Marks, marks: &mut Marks)
    ensures paths { (n : ℕ) → n < G.nodes g.now → Decides (slice_index_or marks.new.on n false) (Led (G.nodes g.now) (λ a b. slice_index_or inside.now.on a false && (slice_index_or inside.now.on b false && G.joins g.now b a)) marks.old.on n) }
    ensures others { (n : ℕ) → G.nodes g.now ≤ n → slice_index_or marks.new.on n false ≡ slice_index_or marks.old.on n false }
{
    let turned = Turned(g);
    let part = Within {
        graph: &turned,
        inside,
    };
    spread(&part, marks);
}

// The inner lines that have an echo: one search over the inner lines alone, from a line to those that it reads.
pub fn echoes_of(c: &Codelets) -> Marks
    ensures computed { (n : ℕ) → slice_index_or result.on n false ≡ echo c.now.lines n }
    ensures least { (n : ℕ) → Decides (slice_index_or result.on n false) (Echo c.now.lines n) }
{
    let inside = Marks {
        on: array::from_fn(|n| c.is_inner(n)),
    };
    let mut marks = Marks {
        on: array::from_fn(|n| is_seed(c, n)),
    };
    trace(&LineGraph(&c.lines), &inside, &mut marks);
    marks
}
