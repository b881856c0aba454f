// The nodes of each stage.
ghost use Rattle.std.specs.Prelude.{◌≡◌, ℕ, ◌+◌, ◌<◌, ◌≤◌, length, get_or, None, slice_index_or, slice_set};
ghost use Rattle.schedule.specs.Seek.{first_from};

use stages::Stages;
use word::{at, put};

// The nodes of each stage, threaded through the table of line numbers: the first node of each stage, and after each node
// the next one of its stage. Tables by line number, as a plan's are, take no memory beyond themselves.
#[derive(Clone, Copy)]
pub struct Schedule {
    pub stage_of: [usize; 208],
    pub first: [Option<usize>; 33],
    pub next: [Option<usize>; 208],
    ghost long: { length stage_of ≡ 208 },
    ghost firsts: { (k : ℕ) → k < 33 → slice_index_or first k None ≡ first_from stage_of k 0 },
    ghost nexts: { (n : ℕ) → n < 208 → get_or stage_of n 0 < 33 → slice_index_or next n None ≡ first_from stage_of (get_or stage_of n 0) (n + 1) },
}

// Puts the node at n in front of the others of stage k; a stage past the table is left alone.
fn thread(k: usize, n: usize, first: &mut [Option<usize>], next: &mut [Option<usize>])
    ensures next { next.new ≡ slice_set next.old n (slice_index_or first.old k None) }
    ensures first { first.new ≡ slice_set first.old k (Some n) }
{
    put(next, n, at(first, k, None));
    put(first, k, Some(n));
}

impl Schedule {
    // The schedule of these stages.
    pub fn of(stages: &Stages) -> Schedule
        ensures { result.stage_of ≡ stages.now.stage_of }
    {
        let stage_of = stages.stage_of;
        let mut first = [None; 33];
        let mut next = [None; 208];
        // from the last node down, so that each finds the next one already there
        for n in (0..208).rev() {
            thread(at(&stage_of, n, 0), n, &mut first, &mut next);
        }
        Schedule {
            stage_of,
            first,
            next,
        }
    }

    // The first node of stage k.
    pub fn first_of(&self, k: usize) -> Option<usize>
        ensures held { result ≡ slice_index_or self.now.first k None }
        ensures least { k < 33 → result ≡ first_from self.now.stage_of k 0 }
        ensures past { 33 ≤ k → result ≡ None }
    {
        at(&self.first, k, None)
    }

    // The next node of the stage of the node at n.
    pub fn next_of(&self, n: usize) -> Option<usize>
        ensures held { result ≡ slice_index_or self.now.next n None }
        ensures least { n < 208 → get_or self.now.stage_of n 0 < 33 → result ≡ first_from self.now.stage_of (get_or self.now.stage_of n 0) (n + 1) }
    {
        at(&self.next, n, None)
    }
}
