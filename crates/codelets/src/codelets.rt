// The codelets of the named states.
ghost use Rattle.std.specs.Prelude.{◌≡◌, ℕ, ◌<◌, true, false, ◌&&◌, if◌then◌else◌, Some, None, Ok, Err, slice_index_or};
ghost use Rattle.codelets.specs.declared.fault.CodeletFault.TheVariants.{TwoStates};
ghost use Rattle.codelets.specs.Codelets.{is_named, in_codelet, crowds, crowded, Owned, Alone, Coded, Smallest};
ghost use Rattle.codelets.specs.Inner.{owned, inner};

use crate::fault::CodeletFault;
use graph::{Marks, Turned, reach};
use line_graph::{LineGraph, is_plain};
use lines::Lines;
use word::at;

// Lines sorted into codelets. Lines that reach each other are one codelet; one that has a state's write line is that state's.
// Each line is marked with the state whose codelet it is in; a line that is in no state's codelet is an outside line.
#[derive(Clone, Copy)]
pub struct Codelets {
    pub lines: Lines,
    pub owner: [Option<usize>; 208],
    ghost owned: { Owned lines owner },
    // no codelet has two states
    ghost alone: { Alone lines },
}

impl Codelets {
    // Whether line n is in state s's codelet.
    #[tactic(auto, using(crate::proofs::Inner::owner_eq))]
    pub fn owns(&self, s: usize, n: usize) -> bool
        ensures { result ≡ in_codelet self.now.lines s n }
    {
        at(&self.owner, n, None) == Some(s)
    }

    // Whether line n is in some state's codelet; every other line is an outside line.
    #[tactic(auto, using(crate::proofs::Inner::owned_is))]
    pub fn is_owned(&self, n: usize) -> bool
        ensures { result ≡ owned self.now.lines n }
    {
        at(&self.owner, n, None).is_some()
    }

    // Whether line n is an inner line: one of a codelet other than its read and write lines.
    pub fn is_inner(&self, n: usize) -> bool
        ensures { result ≡ inner self.now.lines n }
    {
        self.is_owned(n) && is_plain(self.lines.line(n))
    }
}

// The codelet of a named state: the lines that its write line reaches and that reach it.
#[derive(Drop)]
struct Codelet<'a> {
    lines: &'a Lines,
    state: usize,
    to: Marks,
    back: Marks,
    ghost meets: { (n : ℕ) → (slice_index_or to.on n false && slice_index_or back.on n false) ≡ in_codelet lines.now state n },
}

impl<'a> Codelet<'a> {
    // Two searches: along the edges, and against them.
    fn of(lines: &'a Lines, state: usize) -> Codelet<'a>
        requires { is_named lines.now state ≡ true }
        ensures lines { result.lines.now ≡ lines.now }
        ensures state { result.state ≡ state }
    {
        let graph = LineGraph(lines);
        let write = at(&lines.writes, state, 0);
        let mut to = Marks::new();
        reach(&graph, write, &mut to);
        let mut back = Marks::new();
        reach(&Turned(&graph), write, &mut back);
        Codelet {
            lines,
            state,
            to,
            back,
        }
    }

    // Whether line n is in the codelet.
    fn has(&self, n: usize) -> bool
        ensures { result ≡ in_codelet self.now.lines.now self.now.state n }
    {
        self.to.has(n) && self.back.has(n)
    }

    // Whether state t is another named one, and its write line is in the codelet.
    fn has_state(&self, t: usize) -> bool
        ensures { result ≡ crowds self.now.lines.now self.now.state t }
    {
        t != self.state && at(&self.lines.named, t, false) && self.has(at(&self.lines.writes, t, 0))
    }

    // Whether another named state's write line is in the codelet.
    fn is_shared(&self) -> bool
        ensures { result ≡ crowded self.now.lines.now self.now.state }
    {
        (0..8).any(|t| self.has_state(t))
    }

    // Gives the codelet's lines to its state.
    fn claim(&self, owner: &mut [Option<usize>; 208])
        ensures { (n : ℕ) → n < 208 → slice_index_or owner.new n None ≡ (if in_codelet self.now.lines.now self.now.state n then Some self.now.state else slice_index_or owner.old n None) }
    {
        for (n, owner) in owner.iter_mut().enumerate() {
            if self.has(n) {
                *owner = Some(self.state);
            }
        }
    }
}

// The codelets: two searches for each named state. Refused with the smallest state that shares its codelet with another.
pub fn codelets_of(lines: &Lines) -> Result<Codelets, CodeletFault>
    ensures { elim result [ Ok c ↦ (c.lines ≡ lines.now) × Coded lines.now c.owner | Err f ↦ elim f [ TwoStates s ↦ Smallest lines.now s ] ] }
{
    let mut owner = [None; 208];
    for (state, named) in lines.named.iter().enumerate() {
        if *named {
            let codelet = Codelet::of(lines, state);
            if codelet.is_shared() {
                return Err(CodeletFault::TwoStates(state));
            }
            codelet.claim(&mut owner);
        }
    }
    Ok(Codelets {
        lines: *lines,
        owner,
    })
}
